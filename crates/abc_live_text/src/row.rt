//! The rows of a text: the class and the cells of each line.

ghost use Rattle.std.specs.Prelude.{◌≡◌, IfOk, length, map};
ghost use Rattle.abc_live_text.specs.Row.{IsScannedUpTo, new_row};
ghost use Rattle.abc_lines.specs.Text.{lines_of};

use abc_fold::{Counts, Shared};
use abc_scan::LineClass;
use abc_text::Sequence;
use abc_tune_compiler::Compiler;
use std::alloc::{AllocError, Global};
use std::marker::Model;

/// The class and the cells of a line, by its own bytes alone.
#[derive(Drop)]
pub struct Row<K: Drop> {
    pub(crate) class: LineClass,
    pub(crate) cells: Shared<Sequence<K>>,
}

impl<K: Drop> Model for Row<K> {
    ghost use Rattle.abc_live_text.specs.Row.{Row};

    ghost Value = { Row K };

    ghost view = { λ r. record { class = r.class; cells = r.cells } };
}

impl<K: Drop> Row<K> {
    /// Returns the cells of the line.
    pub fn cells(&self) -> &[K]
        ensures { result.now ≡ self.now.cells }
    {
        self.cells.get().as_slice()
    }
}

/// Returns the row of a line.
fn read_line<C: Compiler>(
    alloc: Global,
    compiler: &C,
    line: &[u8],
    work: &mut C::Work,
) -> Result<Row<C::Cell>, AllocError>
    ensures row { IfOk result (λ row. row ≡ new_row (C.rules compiler.now) line.now) }
    ensures counted { IsScannedUpTo 1 (C.Work.counts work.old) (C.Work.counts work.new) }
{
    let class = compiler.class(line);
    let cells = compiler.cells(alloc, line, work)?;
    let cells = Shared::new(alloc, Sequence::from(cells))?;
    Ok(Row { class, cells })
}

/// Returns the rows of lines, in order. Each line is read once. The only error is a failed allocation.
pub fn read_rows<C: Compiler>(
    alloc: Global,
    compiler: &C,
    lines: &[Vec<u8>],
    work: &mut C::Work,
) -> Result<Vec<Row<C::Cell>>, AllocError>
    ensures rows { IfOk result (λ rows. rows.items ≡ map (new_row (C.rules compiler.now)) (lines_of lines.now)) }
    ensures counted { IsScannedUpTo (length lines.now) (C.Work.counts work.old) (C.Work.counts work.new) }
{
    let mut rows = Vec::new(alloc);
    for line in lines {
        rows.push(read_line(alloc, compiler, line, work)?)?;
    }
    Ok(rows)
}
