//! The marks of a cell beside its items.

ghost use Rattle.std.specs.Prelude.{◌≡◌, ◌++◌, [], All, flat_map, option_copied, IfOk, IfSome, OnOk};
ghost use Rattle.abc_bars_body.specs.Body.{here};
ghost use Rattle.abc_bars_body.specs.Cell.{cell_result};
ghost use Rattle.abc_marks_cells.specs.CellWalk.{first_written, is_time_token, later_written, made_at, made_at_end, marks_at_end, marks_of, no_walk, waiting_mark, walked, walked_token};
ghost use Rattle.abc_marks_cells.specs.WaitingMark.{IsWaitingMark};
ghost use Rattle.abc_marks_cells.specs.WrittenMark.{IsPlacedMark, IsWrittenMark};

use crate::mark_list::MarkList;
use crate::waiting_mark::{WaitingMark, made_before, made_without, waiting_kind};
use crate::waiting_marks::WaitingMarks;
use crate::written_mark::{PlacedMark, WrittenMark};
use abc_bars_body::{BodyCopy, CellResult};
use abc_bars_notes::{TokenRole, token_role};
use abc_bars_voice::VoiceState;
use abc_marks::{Columns, Mark, Marks};
use abc_scan::{Token, TokenKind};
use std::alloc::{AllocError, Global};

/// Returns whether a token is a note, a rest, or a chord with a note.
fn is_time_token(kind: &TokenKind) -> bool
    ensures { result ≡ is_time_token kind.now }
{
    match token_role(kind) {
        TokenRole::Sound { noted } => noted,
        TokenRole::Rest => true,
        _ => false,
    }
}

/// Appends what a waiting mark is before a note, chord or rest, by the state there.
fn push_made(
    marks: &mut MarkList,
    state: &VoiceState,
    next: &TokenKind,
    waiting: &WaitingMark,
) -> Result<(), AllocError>
    requires { IsWaitingMark waiting.now }
    ensures { OnOk result (marks.new ≡ marks.old ++ made_at state.now next.now waiting.now) }
{
    if let Some(kind) = made_before(state, next, &waiting.kind)? {
        let before = waiting.before;
        marks.push(Mark { before, kind })?;
    }
    Ok(())
}

/// Appends what waiting marks are before a note, chord or rest, by the state there.
fn push_all_made(
    marks: &mut MarkList,
    state: &VoiceState,
    next: &TokenKind,
    waiting: &[WaitingMark],
) -> Result<(), AllocError>
    requires { All IsWaitingMark waiting.now }
    ensures { OnOk result (marks.new ≡ marks.old ++ flat_map (made_at state.now next.now) waiting.now) }
{
    for one in waiting {
        push_made(marks, state, next, one)?;
    }
    Ok(())
}

/// Appends what a waiting mark is at the end of its cell.
fn push_left(marks: &mut MarkList, waiting: &WaitingMark) -> Result<(), AllocError>
    requires { IsWaitingMark waiting.now }
    ensures { OnOk result (marks.new ≡ marks.old ++ made_at_end waiting.now) }
{
    if let Some(kind) = made_without(&waiting.kind)? {
        let before = waiting.before;
        marks.push(Mark { before, kind })?;
    }
    Ok(())
}

/// Appends what waiting marks are at the end of their cell.
fn push_all_left(marks: &mut MarkList, waiting: &[WaitingMark]) -> Result<(), AllocError>
    requires { All IsWaitingMark waiting.now }
    ensures { OnOk result (marks.new ≡ marks.old ++ flat_map made_at_end waiting.now) }
{
    for one in waiting {
        push_left(marks, one)?;
    }
    Ok(())
}

/// Returns the written mark of a token, if the first one is its.
fn first_written<'a>(token: &Token, written: &'a [PlacedMark]) -> Option<&'a WrittenMark>
    requires { All IsPlacedMark written.now }
    ensures value { option_copied result ≡ first_written token.now written.now }
    ensures range { IfSome result (λ mark. IsWrittenMark mark.now) }
{
    match written {
        [placed, ..] => {
            if placed.from == token.from {
                Some(&placed.mark)
            } else {
                None
            }
        }
        [] => None,
    }
}

/// Returns the written marks after that of a token.
fn later_written<'a>(token: &Token, written: &'a [PlacedMark]) -> &'a [PlacedMark]
    requires { All IsPlacedMark written.now }
    ensures value { result.now ≡ later_written token.now written.now }
    ensures range { All IsPlacedMark result.now }
{
    match written {
        [placed, rest @ ..] => {
            if placed.from == token.from {
                rest
            } else {
                written
            }
        }
        [] => written,
    }
}

/// What the tokens of a cell so far give, with the marks that still wait.
#[derive(Drop)]
pub(crate) struct CellWalk {
    given: CellResult,
    waiting: WaitingMarks,
    marks: MarkList,
}

impl CellWalk {
    /// The walk before the first token of a cell.
    fn new(alloc: Global, body: BodyCopy, cell: &[Token]) -> Result<CellWalk, AllocError>
        ensures { IfOk result (λ walk. walk ≡ no_walk body) }
    {
        let given = CellResult::new(alloc, body, cell)?;
        Ok(CellWalk {
            given,
            waiting: WaitingMarks::new(alloc),
            marks: MarkList::new(alloc),
        })
    }

    /// Ends the waiting of all marks, before a note, chord or rest.
    fn end_waiting(&mut self, alloc: Global, next: &TokenKind) -> Result<(), AllocError>
        ensures { OnOk result (self.new ≡ record self.old {
          waiting = [];
          marks = self.old.marks ++ flat_map (made_at (here self.old.given.body) next.now) self.old.waiting;
        }) }
    {
        let state = self.given.body.here();
        push_all_made(&mut self.marks, state, next, self.waiting.as_slice())?;
        self.waiting = WaitingMarks::new(alloc);
        Ok(())
    }

    /// Adds the mark of a token to those that wait.
    fn wait(&mut self, alloc: Global, token: &Token, mark: &WrittenMark) -> Result<(), AllocError>
        requires { IsWrittenMark mark.now }
        ensures { OnOk result (self.new ≡ record self.old { waiting = self.old.waiting ++ waiting_mark self.old.given token.now mark.now }) }
    {
        let columns = Columns {
            from: token.from,
            to: token.to,
        };
        let kind = waiting_kind(alloc, self.given.body.here(), columns, mark)?;
        let before = self.given.items.items().len();
        self.waiting.push(WaitingMark { before, kind })
    }

    /// Adds a token with the mark that it spells; `ahead` are the tokens after it.
    fn add_token(
        &mut self,
        alloc: Global,
        token: &Token,
        ahead: &[Token],
        mark: Option<&WrittenMark>,
    ) -> Result<(), AllocError>
        requires { IfSome mark (λ mark. IsWrittenMark mark.now) }
        ensures { OnOk result (self.new ≡ walked_token self.old token.now ahead.now (option_copied mark.entry)) }
    {
        if is_time_token(&token.kind) {
            self.end_waiting(alloc, &token.kind)?;
        }
        if let Some(mark) = mark {
            self.wait(alloc, token, mark)?;
        }
        self.given.add_token(alloc, token, ahead)
    }

    /// Adds the tokens of a cell with the marks that they spell.
    fn add_tokens(
        &mut self,
        alloc: Global,
        cell: &[Token],
        written: &[PlacedMark],
    ) -> Result<(), AllocError>
        requires { All IsPlacedMark written.now }
        ensures { OnOk result (self.new ≡ walked self.old cell.now written.now) }
    {
        let mut left = cell;
        let mut written_left = written;
        while let [token, ahead @ ..] = left {
            self.add_token(alloc, token, ahead, first_written(token, written_left))?;
            written_left = later_written(token, written_left);
            left = ahead;
        }
        Ok(())
    }

    /// The state and items of the cell, and its marks.
    fn into_parts(self, alloc: Global) -> Result<(CellResult, Marks), AllocError>
        ensures value { IfOk result (λ made. made.0 ≡ self.given) }
        ensures marks { IfOk result (λ made. made.1 ≡ marks_at_end self) }
    {
        let CellWalk {
            given,
            waiting,
            mut marks,
        } = self;
        push_all_left(&mut marks, waiting.as_slice())?;
        Ok((given, marks.into_marks(alloc)?))
    }
}

/// Reads a cell of a body with the marks that it spells: the state after it, its items and its faults, as the written reading has
/// them, and its marks in order of text. It returns an error if an allocation fails.
#[tactic(auto, using(crate::proofs::Walks::same_given))]
pub fn marked_cell(
    alloc: Global,
    body: BodyCopy,
    cell: &[Token],
    written: &[PlacedMark],
) -> Result<(CellResult, Marks), AllocError>
    requires { All IsPlacedMark written.now }
    ensures value { IfOk result (λ made. made.0 ≡ cell_result body cell.now) }
    ensures marks { IfOk result (λ made. made.1 ≡ marks_of body cell.now written.now) }
{
    let mut walk = CellWalk::new(alloc, body, cell)?;
    walk.add_tokens(alloc, cell, written)?;
    walk.into_parts(alloc)
}
