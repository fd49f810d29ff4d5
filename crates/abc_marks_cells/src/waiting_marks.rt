//! Lists of marks that wait.

ghost use Rattle.std.specs.Prelude.{◌≡◌, All, [], ◌∷◌, ◌++◌, OnOk};
ghost use Rattle.abc_marks_cells.specs.WaitingMark.{IsWaitingMark};

use crate::waiting_mark::WaitingMark;
use abc_text::Sequence;
use std::alloc::{AllocError, Global};
use std::marker::Model;

/// Marks that wait for the same note, chord or rest. Contracts see the list.
#[derive(Drop)]
pub struct WaitingMarks {
    list: Sequence<WaitingMark>,
}

impl Model for WaitingMarks {
    ghost use Rattle.std.specs.Prelude.{List, All};
    ghost use Rattle.abc_marks_cells.specs.declared.waiting_mark.WaitingMark.{WaitingMark};
    ghost use Rattle.abc_marks_cells.specs.WaitingMark.{IsWaitingMark};

    ghost Value = { List WaitingMark };

    ghost view = { λ waiting. waiting.list };

    ghost invariant = { λ waiting. All IsWaitingMark waiting.list };
}

impl WaitingMarks {
    /// No marks.
    pub fn new(alloc: Global) -> WaitingMarks
        ensures { result ≡ [] }
    {
        WaitingMarks {
            list: Sequence::new(alloc),
        }
    }

    /// Appends a mark. It returns an error if an allocation fails.
    pub fn push(&mut self, waiting: WaitingMark) -> Result<(), AllocError>
        requires { IsWaitingMark waiting }
        ensures { OnOk result (self.new ≡ self.old ++ waiting ∷ []) }
    {
        self.list.push(waiting)
    }

    /// The marks in order.
    pub fn as_slice(&self) -> &[WaitingMark]
        ensures value { result.now ≡ self.now }
        ensures range { All IsWaitingMark result.now }
    {
        self.list.as_slice()
    }
}
