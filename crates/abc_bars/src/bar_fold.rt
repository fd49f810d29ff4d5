//! The fold over the cells of file headers and of tunes.

ghost use Rattle.std.specs.Prelude.{◌≡◌, IfOk};
ghost use Rattle.std.specs.Option.{option_copied};
ghost use Rattle.abc_bars_body.specs.Cell.{cell_result};
ghost use Rattle.abc_bars_body.specs.SameEntry.{bar_steps, bars_resumable};
ghost use Rattle.abc_bars_header.specs.Header.{header_result};
ghost use Rattle.abc_bars_header.specs.HeaderLine.{DirectiveLine, FieldLine};
ghost use Rattle.abc_bars_body.specs.Step.{field_line, field_in, directive_line, directive_in, line_in, body_step, line_step};
ghost use Rattle.abc_bars_body.specs.Step.{header_step, file_header_step_of, file_header_step, entry_step};

use abc_bars_body::{BodyCopy, CellResult, Entry, body_from, cell_result};
use abc_bars_header::{
    Defaults, FieldKind, FileHeaderResult, Header, HeaderResult, file_header_directive_result,
    file_header_result, header_directive_result, header_result, kind_of,
};
use abc_bars_items::{Items, ItemsBuilder};
use abc_fields::{EMPTY_KEY, key_set_by};
use abc_fold::{Fold, Work};
use abc_scan::{Cell, Directive, Field, Token, TokenKind};
use abc_text::Sequence;
use std::alloc::{AllocError, Global};

/// The state after a cell, and what it gives.
type StepResult = Result<(Entry, ItemsBuilder), AllocError>;

/// The field that a token is, if it is a field line.
fn field_line(kind: &TokenKind) -> Option<&Field>
    ensures { option_copied result ≡ field_line kind.now }
{
    match kind {
        TokenKind::Field(field) => Some(field.get()),
        _ => None,
    }
}

/// The field that a cell is, if it is a field line.
fn field_in(cell: &[Token]) -> Option<&Field>
    ensures { option_copied result ≡ field_in cell.now }
{
    match cell {
        [token, ..] => field_line(&token.kind),
        [] => None,
    }
}

/// The directive that a token is, if it is a directive line.
fn directive_line(kind: &TokenKind) -> Option<Directive>
    ensures { result ≡ directive_line kind.now }
{
    match kind {
        TokenKind::Directive(directive) => Some(*directive),
        _ => None,
    }
}

/// The directive that a cell is, if it is a directive line.
fn directive_in(cell: &[Token]) -> Option<Directive>
    ensures { result ≡ directive_in cell.now }
{
    match cell {
        [token, ..] => directive_line(&token.kind),
        [] => None,
    }
}

/// A cell of a body.
fn body_step(alloc: Global, body: BodyCopy, cell: &[Token]) -> StepResult
    ensures { IfOk result (λ made. made ≡ body_step body cell.now) }
{
    let CellResult { body, items, .. } = cell_result(alloc, body, cell)?;
    let entry = body.into_entry(alloc)?;
    Ok((entry, items))
}

/// A field of a header, of which a K: ends it.
fn field_step(alloc: Global, header: Header, field: &Field) -> StepResult
    ensures { IfOk result (λ made. made ≡ line_step (header_result header (FieldLine field.now)) (FieldLine field.now)) }
{
    let HeaderResult {
        header,
        items,
        faults,
    } = header_result(alloc, header, field)?;
    let entry = match kind_of(field.letter) {
        FieldKind::Key => {
            let key = key_set_by(field.value.as_slice());
            let body = body_from(alloc, &header, &key)?;
            Entry::in_body(alloc, body)?
        }
        FieldKind::Reference
        | FieldKind::Title
        | FieldKind::Meter
        | FieldKind::UnitLength
        | FieldKind::Tempo
        | FieldKind::Parts
        | FieldKind::Voice
        | FieldKind::Other => Entry::in_header(alloc, header)?,
    };
    Ok((entry, ItemsBuilder::of(items, faults)))
}

/// A directive of a header, which does not end it.
fn directive_step(alloc: Global, header: Header, directive: Directive) -> StepResult
    ensures { IfOk result (λ made. made ≡ line_step (header_result header (DirectiveLine directive)) (DirectiveLine directive)) }
{
    let HeaderResult {
        header,
        items,
        faults,
    } = header_directive_result(alloc, header, directive)?;
    let entry = Entry::in_header(alloc, header)?;
    Ok((entry, ItemsBuilder::of(items, faults)))
}

/// A cell of a header: a line of music ends it, and is a cell of the body.
fn header_step(alloc: Global, header: Header, cell: &[Token]) -> StepResult
    ensures { IfOk result (λ made. made ≡ header_step header cell.now (line_in cell.now)) }
{
    match (field_in(cell), directive_in(cell)) {
        (Some(field), _) => field_step(alloc, header, field),
        (None, Some(directive)) => directive_step(alloc, header, directive),
        (None, None) => {
            let body = body_from(alloc, &header, &EMPTY_KEY)?;
            body_step(alloc, BodyCopy::own(alloc, body)?, cell)
        }
    }
}

/// What a cell of a file header gives: music gives nothing and leaves the values.
fn file_header_cell(
    alloc: Global,
    defaults: Defaults,
    cell: &[Token],
) -> Result<FileHeaderResult, AllocError>
    ensures { IfOk result (λ given. file_header_step_of given ≡ file_header_step defaults (line_in cell.now)) }
{
    match (field_in(cell), directive_in(cell)) {
        (Some(field), _) => file_header_result(alloc, defaults, field),
        (None, Some(directive)) => file_header_directive_result(alloc, defaults, directive),
        (None, None) => {
            let faults = Sequence::new(alloc);
            Ok(FileHeaderResult { defaults, faults })
        }
    }
}

/// A cell of a file header.
fn file_header_step(alloc: Global, defaults: Defaults, cell: &[Token]) -> StepResult
    ensures { IfOk result (λ made. made ≡ file_header_step defaults (line_in cell.now)) }
{
    let given = file_header_cell(alloc, defaults, cell)?;
    let items = Sequence::new(alloc);
    Ok((
        Entry::FileHeader(given.defaults),
        ItemsBuilder::of(items, given.faults),
    ))
}

/// A cell that is entered in this state.
#[tactic(auto, unfolding(abc_bars_body::specs::Step::entry_step))]
fn entry_step(alloc: Global, entry: &Entry, cell: &[Token]) -> StepResult
    ensures { IfOk result (λ made. made ≡ entry_step entry.now cell.now) }
{
    match entry {
        Entry::FileHeader(defaults) => file_header_step(alloc, *defaults, cell),
        Entry::Opening(defaults) => { header_step(alloc, Header::opening(alloc, *defaults), cell) }
        Entry::Header(header) => header_step(alloc, header.get().clone()?, cell),
        Entry::Body(body) => body_step(alloc, BodyCopy::of(body)?, cell),
    }
}

/// The fold over the cells of a file header or of a tune, from `Entry::header` or `Entry::tune` on. The items of a cell, and the
/// state after it, depend only on the cell and on the state in which it is entered.
#[derive(Clone, Copy, Debug, Drop)]
pub struct BarFold;

impl Fold for BarFold {
    type State = Entry;

    type Cell = Cell;

    type Items = Items;

    type Work = Work;

    ghost steps = { λ _. bar_steps };

    ghost resumable = { λ _. bars_resumable };

    fn step(
        &self,
        alloc: Global,
        state: &Entry,
        cell: &Cell,
        work: &mut Work,
    ) -> Result<(Entry, Items), AllocError> {
        work.count_folded();
        let (next, given) = entry_step(alloc, state, cell.tokens())?;
        Ok((next, Items::new(alloc, given)?))
    }

    fn same(a: &Entry, b: &Entry) -> bool {
        a.same(b)
    }

    fn copy_state(_alloc: Global, state: &Entry) -> Result<Entry, AllocError> {
        state.share()
    }

    fn copy_cell(_alloc: Global, cell: &Cell) -> Result<Cell, AllocError> {
        cell.share()
    }

    fn copy_items(_alloc: Global, items: &Items) -> Result<Items, AllocError> {
        items.share()
    }
}
