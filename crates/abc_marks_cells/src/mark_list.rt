//! Lists of marks that grow.

ghost use Rattle.std.specs.Prelude.{◌≡◌, All, [], ◌∷◌, ◌++◌, IfOk, OnOk};
ghost use Rattle.abc_marks.specs.Mark.{IsMark};

use abc_marks::{Mark, Marks};
use abc_text::Sequence;
use std::alloc::{AllocError, Global};
use std::marker::Model;

/// The marks of a cell so far. Contracts see the list.
#[derive(Drop)]
pub struct MarkList {
    list: Sequence<Mark>,
}

impl Model for MarkList {
    ghost use Rattle.std.specs.Prelude.{List, All};
    ghost use Rattle.abc_marks.specs.declared.mark.Mark.{Mark};
    ghost use Rattle.abc_marks.specs.Mark.{IsMark};

    ghost Value = { List Mark };

    ghost view = { λ marks. marks.list };

    ghost invariant = { λ marks. All IsMark marks.list };
}

impl MarkList {
    /// No marks.
    pub fn new(alloc: Global) -> MarkList
        ensures { result ≡ [] }
    {
        MarkList {
            list: Sequence::new(alloc),
        }
    }

    /// Appends a mark. It returns an error if an allocation fails.
    pub fn push(&mut self, mark: Mark) -> Result<(), AllocError>
        requires { IsMark mark }
        ensures { OnOk result (self.new ≡ self.old ++ mark ∷ []) }
    {
        self.list.push(mark)
    }

    /// The marks as those of a cell. It returns an error if an allocation fails.
    pub fn into_marks(self, alloc: Global) -> Result<Marks, AllocError>
        ensures { IfOk result (λ marks. marks ≡ self) }
    {
        Marks::of(alloc, self.list)
    }
}
