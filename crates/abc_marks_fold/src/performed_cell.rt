//! The cells of a performed tune.

ghost use Rattle.std.specs.Prelude.{◌≡◌, IfOk};

use crate::block_name::BlockName;
use abc_marks::Marks;
use abc_marks_cells::WrittenMarks;
use abc_scan::Cell;
use std::alloc::AllocError;

/// A cell of the written reading with the marks that it spells, or a line that the written reading takes for a comment.
#[derive(Drop)]
pub enum PerformedCell {
    /// A line that begins a text block.
    Begin(BlockName),
    /// A line that ends a text block.
    End(BlockName),
    /// A directive, as the mark that it is.
    Directive(Marks),
    Read { base: Cell, written: WrittenMarks },
}

impl PerformedCell {
    /// A copy, which shares all. It returns an error if an allocation fails.
    pub fn share(&self) -> Result<PerformedCell, AllocError>
        ensures { IfOk result (λ copy. copy ≡ self.now) }
    {
        match self {
            PerformedCell::Begin(name) => {
                let name = name.share()?;
                Ok(PerformedCell::Begin(name))
            }
            PerformedCell::End(name) => {
                let name = name.share()?;
                Ok(PerformedCell::End(name))
            }
            PerformedCell::Directive(marks) => {
                let marks = marks.share()?;
                Ok(PerformedCell::Directive(marks))
            }
            PerformedCell::Read { base, written } => {
                let base = base.share()?;
                let written = written.share()?;
                Ok(PerformedCell::Read { base, written })
            }
        }
    }
}
