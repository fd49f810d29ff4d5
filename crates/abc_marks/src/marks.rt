//! The marks of a cell.

ghost use Rattle.std.specs.Prelude.{◌≡◌, All, [], IfOk};
ghost use Rattle.abc_marks.specs.Mark.{IsMark};

use crate::mark::Mark;
use abc_text::{Sequence, Shared};
use std::alloc::{AllocError, Global};
use std::marker::Model;

/// The marks of a cell in order of text. A copy shares them. Most cells have none, which takes no memory. Contracts see the list.
#[derive(Drop)]
pub struct Marks {
    list: Option<Shared<Sequence<Mark>>>,
}

impl Model for Marks {
    ghost use Rattle.std.specs.Prelude.{List, All};
    ghost use Rattle.abc_marks.specs.declared.mark.Mark.{Mark};
    ghost use Rattle.abc_marks.specs.Mark.{IsMark};
    ghost use Rattle.abc_marks.specs.Marks.{listed};

    ghost Value = { List Mark };

    ghost view = { λ marks. listed marks.list };

    ghost invariant = { λ marks. All IsMark (listed marks.list) };
}

impl Marks {
    /// No marks.
    pub fn none() -> Marks
        ensures { result ≡ [] }
    {
        Marks { list: None }
    }

    /// These marks. It returns an error if an allocation fails.
    pub fn of(alloc: Global, marks: Sequence<Mark>) -> Result<Marks, AllocError>
        requires { All IsMark marks }
        ensures { IfOk result (λ made. made ≡ marks) }
    {
        if marks.is_empty() {
            return Ok(Marks::none());
        }
        let list = Shared::new(alloc, marks)?;
        Ok(Marks { list: Some(list) })
    }

    /// The marks in order.
    pub fn as_slice(&self) -> &[Mark]
        ensures value { result.now ≡ self.now }
        ensures range { All IsMark result.now }
    {
        match &self.list {
            Some(list) => list.get().as_slice(),
            None => &[],
        }
    }

    /// A copy, which shares the marks. It allocates nothing.
    pub fn share(&self) -> Result<Marks, AllocError>
        ensures { IfOk result (λ copy. copy ≡ self.now) }
    {
        match &self.list {
            Some(list) => {
                let list = list.share()?;
                Ok(Marks { list: Some(list) })
            }
            None => Ok(Marks::none()),
        }
    }
}
