//! Why an edit is refused, found without an allocation: it is asked for after one failed.

ghost use Rattle.std.specs.Prelude.{◌≡◌};
ghost use Rattle.abc_lines.specs.Text.{Splice};
ghost use Rattle.abc_lines.specs.Edits.{Refuses, edited, insertion, replaced, replacement};
ghost use Rattle.abc_lines.specs.TextLines.{lines_in};
ghost use Rattle.c_handle.specs.Slot.{session_in};
ghost use Rattle.c_handle.specs.Sessions.{EditsSlot};

use crate::codes::{CODE_MISUSED, code_of};
use crate::slot::SessionSlot;
use abc_lines::{EditError, limit_error};
use abc_live::Session;
use std::alloc::Global;

/// Returns why a text cannot replace lines of a session; the first reason counts.
fn reason(session: &Session, at: u32, removed: u32, text: &[u8]) -> EditError
    ensures value { let splice : Splice = record { at = at; removed = removed; lines = lines_in text.now } in
        Refuses result (replaced session.now.text splice) }
{
    let lines = u64::from(session.line_count());
    if u64::from(at) + u64::from(removed) > lines {
        return EditError::BadRange;
    }
    let others = session.line_count() - removed;
    limit_error(others as usize, text).unwrap_or(EditError::OutOfMemory)
}

/// Returns the first reason why an insertion is refused.
fn insertion_reason(session: &Session, at: u32, text: &[u8]) -> EditError
    ensures value { Refuses result (edited session.now.text (insertion at (lines_in text.now))) }
{
    if at == 0 {
        return EditError::BadRange;
    }
    reason(session, at - 1, 0, text)
}

/// Returns the first reason why a replacement is refused.
fn replacement_reason(session: &Session, from: u32, to: u32, text: &[u8]) -> EditError
    ensures value { Refuses result (edited session.now.text (replacement from to (lines_in text.now))) }
{
    if from == 0 || from > to {
        return EditError::BadRange;
    }
    reason(session, from - 1, to - from + 1, text)
}

/// Answers an insertion whose lines could not be allocated.
#[tactic(auto, using(crate::proofs::Sessions::refused_edits))]
pub fn refuse_insertion(alloc: Global, slot: &mut SessionSlot, at: u32, text: &[u8]) -> u32
    ensures value { EditsSlot (insertion at (lines_in text.now)) (session_in slot.old) result (session_in slot.new) }
    ensures empty { session_in slot.old ≡ None → slot.new ≡ slot.old }
{
    match slot.take(alloc) {
        Some(session) => {
            let error = insertion_reason(&session.session, at, text);
            slot.fill(session);
            code_of(error)
        }
        None => CODE_MISUSED,
    }
}

/// Answers a replacement whose lines could not be allocated.
#[tactic(auto, using(crate::proofs::Sessions::refused_edits))]
pub fn refuse_replacement(
    alloc: Global,
    slot: &mut SessionSlot,
    from: u32,
    to: u32,
    text: &[u8],
) -> u32
    ensures value { EditsSlot (replacement from to (lines_in text.now)) (session_in slot.old) result (session_in slot.new) }
    ensures empty { session_in slot.old ≡ None → slot.new ≡ slot.old }
{
    match slot.take(alloc) {
        Some(session) => {
            let error = replacement_reason(&session.session, from, to, text);
            slot.fill(session);
            code_of(error)
        }
        None => CODE_MISUSED,
    }
}
