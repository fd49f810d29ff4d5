//! A step of the fold at a cell that spells marks.

ghost use Rattle.std.specs.Prelude.{◌≡◌, All, IfOk};
ghost use Rattle.abc_bars_body.specs.Step.{body_step, entry_step, line_in};
ghost use Rattle.abc_fold.specs.Work.{after_steps};
ghost use Rattle.abc_marks_cells.specs.WrittenMark.{IsPlacedMark};
ghost use Rattle.abc_marks_fold.specs.CellMarks.{body_after, body_given, body_here, cell_given, is_music, plain_given};

use abc_bars::BarFold;
use abc_bars_body::{BodyCopy, CellResult, Entry, body_from};
use abc_bars_header::Header;
use abc_bars_items::Items;
use abc_fields::EMPTY_KEY;
use abc_fold::{Fold, Work};
use abc_marks::{Marks, PerformedItems};
use abc_marks_cells::{PlacedMark, WrittenMarks, marked_cell};
use abc_scan::{Cell, Token, TokenKind};
use std::alloc::{AllocError, Global};

/// Returns whether a cell is music: no field line and no directive line.
fn is_music(cell: &[Token]) -> bool
    ensures { result ≡ is_music cell.now }
{
    match cell {
        [token, ..] => !matches!(token.kind, TokenKind::Field(_) | TokenKind::Directive(_)),
        [] => true,
    }
}

/// Returns a copy of the body that a cell of music begins after a header.
fn body_after(
    alloc: Global,
    header: &Header,
    cell: &[Token],
) -> Result<Option<BodyCopy>, AllocError>
    ensures { IfOk result (λ body. body ≡ body_after header.now (line_in cell.now)) }
{
    if !is_music(cell) {
        return Ok(None);
    }
    let body = body_from(alloc, header, &EMPTY_KEY)?;
    let body = BodyCopy::own(alloc, body)?;
    Ok(Some(body))
}

/// Returns a copy of the body in which a cell is read as music, if it is: in a header music begins the body.
fn body_here(alloc: Global, entry: &Entry, cell: &[Token]) -> Result<Option<BodyCopy>, AllocError>
    ensures { IfOk result (λ body. body ≡ body_here entry.now cell.now) }
{
    match entry {
        Entry::FileHeader(_) => Ok(None),
        Entry::Opening(defaults) => {
            let header = Header::opening(alloc, *defaults);
            body_after(alloc, &header, cell)
        }
        Entry::Header(header) => body_after(alloc, header.get(), cell),
        Entry::Body(body) => {
            let body = BodyCopy::of(body)?;
            Ok(Some(body))
        }
    }
}

/// Reads a cell of a body with the marks that it spells.
fn body_marked_step(
    alloc: Global,
    body: BodyCopy,
    cell: &[Token],
    written: &[PlacedMark],
) -> Result<(Entry, PerformedItems), AllocError>
    requires { All IsPlacedMark written.now }
    ensures state_after { IfOk result (λ made. made.0 ≡ (body_step body cell.now).0) }
    ensures items { IfOk result (λ made. made.1 ≡ body_given body cell.now written.now) }
{
    let (given, marks) = marked_cell(alloc, body, cell, written)?;
    let CellResult { body, items, .. } = given;
    let entry = body.into_entry(alloc)?;
    let base = Items::new(alloc, items)?;
    Ok((entry, PerformedItems { base, marks }))
}

/// Reads a cell without marks.
fn plain_step(
    alloc: Global,
    entry: &Entry,
    cell: &Cell,
    work: &mut Work,
) -> Result<(Entry, PerformedItems), AllocError>
    ensures state_after { IfOk result (λ made. made.0 ≡ (entry_step entry.now cell.now).0) }
    ensures items { IfOk result (λ made. made.1 ≡ plain_given entry.now cell.now) }
    ensures counted { work.new ≡ after_steps work.old 1 }
{
    let (next, base) = BarFold.step(alloc, entry, cell, work)?;
    let marks = Marks::none();
    Ok((next, PerformedItems { base, marks }))
}

/// Reads a cell outside text blocks: the state and items of the written reading, and its marks.
#[tactic(auto, using(crate::proofs::MarkedSteps::given_nowhere))]
pub(crate) fn cell_step(
    alloc: Global,
    entry: &Entry,
    cell: &Cell,
    written: &WrittenMarks,
    work: &mut Work,
) -> Result<(Entry, PerformedItems), AllocError>
    ensures state_after { IfOk result (λ made. made.0 ≡ (entry_step entry.now cell.now).0) }
    ensures items { IfOk result (λ made. made.1 ≡ cell_given entry.now cell.now written.now) }
    ensures counted { work.new ≡ after_steps work.old 1 }
{
    let written = written.as_slice();
    if written.is_empty() {
        return plain_step(alloc, entry, cell, work);
    }
    let body = match body_here(alloc, entry, cell.tokens()) {
        Ok(body) => body,
        Err(refused) => {
            work.count_folded();
            return Err(refused);
        }
    };
    match body {
        Some(body) => {
            work.count_folded();
            body_marked_step(alloc, body, cell.tokens(), written)
        }
        None => plain_step(alloc, entry, cell, work),
    }
}
