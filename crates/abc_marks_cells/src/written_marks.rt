//! The marks that a cell spells.

ghost use Rattle.std.specs.Prelude.{◌≡◌, All, [], ◌∷◌, ◌++◌, IfOk, OnOk};
ghost use Rattle.abc_marks_cells.specs.WrittenMark.{IsPlacedMark};

use crate::written_mark::PlacedMark;
use abc_text::{Sequence, Shared};
use std::alloc::{AllocError, Global};
use std::marker::Model;

/// The marks that a cell spells, in order of text. A copy shares them. Most cells spell none, which takes no memory. Contracts see
/// the list.
#[derive(Drop)]
pub struct WrittenMarks {
    list: Option<Shared<Sequence<PlacedMark>>>,
}

impl Model for WrittenMarks {
    ghost use Rattle.std.specs.Prelude.{List, All};
    ghost use Rattle.abc_marks_cells.specs.declared.written_mark.PlacedMark.{PlacedMark};
    ghost use Rattle.abc_marks_cells.specs.WrittenMark.{IsPlacedMark, listed};

    ghost Value = { List PlacedMark };

    ghost view = { λ marks. listed marks.list };

    ghost invariant = { λ marks. All IsPlacedMark (listed marks.list) };
}

impl WrittenMarks {
    /// No marks.
    pub fn none() -> WrittenMarks
        ensures { result ≡ [] }
    {
        WrittenMarks { list: None }
    }

    /// These marks. It returns an error if an allocation fails.
    pub fn of(alloc: Global, marks: Sequence<PlacedMark>) -> Result<WrittenMarks, AllocError>
        requires { All IsPlacedMark marks }
        ensures { IfOk result (λ made. made ≡ marks) }
    {
        if marks.is_empty() {
            return Ok(WrittenMarks::none());
        }
        let list = Shared::new(alloc, marks)?;
        Ok(WrittenMarks { list: Some(list) })
    }

    /// The marks in order.
    pub fn as_slice(&self) -> &[PlacedMark]
        ensures value { result.now ≡ self.now }
        ensures range { All IsPlacedMark result.now }
    {
        match &self.list {
            Some(list) => list.get().as_slice(),
            None => &[],
        }
    }

    /// A copy, which shares the marks. It allocates nothing.
    pub fn share(&self) -> Result<WrittenMarks, AllocError>
        ensures { IfOk result (λ copy. copy ≡ self.now) }
    {
        match &self.list {
            Some(list) => {
                let list = list.share()?;
                Ok(WrittenMarks { list: Some(list) })
            }
            None => Ok(WrittenMarks::none()),
        }
    }
}
