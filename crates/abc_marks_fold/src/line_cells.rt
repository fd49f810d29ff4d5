//! The cells of a line of a performed tune.

ghost use Rattle.std.specs.Prelude.{◌≡◌, ◌∷◌, [], map, is_some, IfOk, IfSome};
ghost use Rattle.abc_fold.specs.Work.{raised};
ghost use Rattle.abc_marks.specs.Directive.{IsPlayingDirective};
ghost use Rattle.abc_marks_readers.specs.Block.{block_begun_by, block_ended_by};
ghost use Rattle.abc_marks_fold.specs.LineCells.{comment_cell, directive_cell, directive_marks, is_read_besides, performed_cells_of, performed_class_of, read_cell};

use crate::block_name::BlockName;
use crate::performed_cell::PerformedCell;
use abc_fold::Work;
use abc_marks::{Mark, MarkKind, Marks, PlayingDirective};
use abc_marks_cells::{MarkList, heard_cell, marks_written};
use abc_marks_readers::{
    block_begun_by, block_ended_by, is_playing_directive, playing_directive_of,
};
use abc_scan::{Cell, LineClass, cells_of_line, class_of};
use std::alloc::{AllocError, Global};

/// Returns whether a line begins a text block.
fn begins_block(line: &[u8]) -> bool
    ensures { result ≡ is_some (block_begun_by line.now) }
{
    match block_begun_by(line) {
        Some(_) => true,
        None => false,
    }
}

/// Returns whether a line ends a text block.
fn ends_block(line: &[u8]) -> bool
    ensures { result ≡ is_some (block_ended_by line.now) }
{
    match block_ended_by(line) {
        Some(_) => true,
        None => false,
    }
}

/// Returns whether a line is read besides those of the written reading.
#[tactic(auto, unfolding(crate::specs::LineCells::is_read_besides))]
fn is_read_besides(line: &[u8]) -> bool
    ensures { result ≡ is_read_besides line.now }
{
    begins_block(line) || ends_block(line) || is_playing_directive(line)
}

/// Returns the class of a line, by its own bytes: a line that is read besides those of the written reading is a directive. It
/// allocates nothing.
pub fn performed_class_of(line: &[u8]) -> LineClass
    ensures { result ≡ performed_class_of line.now }
{
    if is_read_besides(line) {
        LineClass::Directive
    } else {
        class_of(line)
    }
}

/// Returns the marks of a line with a directive: one.
fn directive_marks(alloc: Global, directive: PlayingDirective) -> Result<Marks, AllocError>
    requires { IsPlayingDirective directive }
    ensures { IfOk result (λ marks. marks ≡ directive_marks directive) }
{
    let mut marks = MarkList::new(alloc);
    let kind = MarkKind::Directive(directive);
    marks.push(Mark { before: 0, kind })?;
    marks.into_marks(alloc)
}

/// Returns the cell of a line with a directive that is heard.
fn directive_cell(alloc: Global, line: &[u8]) -> Result<Option<PerformedCell>, AllocError>
    ensures { IfOk result (λ cell. cell ≡ directive_cell line.now) }
{
    match playing_directive_of(alloc, line)? {
        Some(directive) => {
            let marks = directive_marks(alloc, directive)?;
            Ok(Some(PerformedCell::Directive(marks)))
        }
        None => Ok(None),
    }
}

/// Returns the cell of a line that the written reading takes for a comment.
fn comment_cell(alloc: Global, line: &[u8]) -> Result<Option<PerformedCell>, AllocError>
    ensures { IfOk result (λ cell. cell ≡ comment_cell line.now) }
{
    if let Some(name) = block_begun_by(line) {
        let name = BlockName::new(alloc, name)?;
        return Ok(Some(PerformedCell::Begin(name)));
    }
    if let Some(name) = block_ended_by(line) {
        let name = BlockName::new(alloc, name)?;
        return Ok(Some(PerformedCell::End(name)));
    }
    directive_cell(alloc, line)
}

/// Returns a cell of a line, from that of the written reading.
fn read_cell(alloc: Global, line: &[u8], cell: &Cell) -> Result<PerformedCell, AllocError>
    ensures { IfOk result (λ made. made ≡ read_cell line.now cell.now) }
{
    let written = marks_written(alloc, line, cell.tokens())?;
    let base = heard_cell(alloc, line, cell)?;
    Ok(PerformedCell::Read { base, written })
}

/// Returns the cells of a line, from those of the written reading.
fn read_cells(alloc: Global, line: &[u8], cells: &[Cell]) -> Result<Vec<PerformedCell>, AllocError>
    ensures { IfOk result (λ made. made.items ≡ map (read_cell line.now) cells.now) }
{
    let mut made = Vec::with_capacity(alloc, cells.len())?;
    for cell in cells {
        made.push(read_cell(alloc, line, cell)?)?;
    }
    Ok(made)
}

/// Returns a list of one cell.
fn one_cell(alloc: Global, cell: PerformedCell) -> Result<Vec<PerformedCell>, AllocError>
    ensures { IfOk result (λ made. made.items ≡ cell ∷ []) }
{
    let mut made = Vec::with_capacity(alloc, 1)?;
    made.push(cell)?;
    Ok(made)
}

/// Returns the cells of a line. Counts one line scanned, also if an allocation fails.
pub fn performed_cells_of(
    alloc: Global,
    line: &[u8],
    work: &mut Work,
) -> Result<Vec<PerformedCell>, AllocError>
    ensures cells { IfOk result (λ cells. cells.items ≡ performed_cells_of line.now) }
    ensures counted { work.new ≡ record work.old { scanned = raised work.old.scanned 1 } }
{
    let read = cells_of_line(alloc, line, work);
    if let Some(cell) = comment_cell(alloc, line)? {
        return one_cell(alloc, cell);
    }
    let cells = read?;
    read_cells(alloc, line, &cells)
}
