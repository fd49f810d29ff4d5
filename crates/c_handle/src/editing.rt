//! Calls that edit the text of a session.

ghost use Rattle.std.specs.Prelude.{◌≡◌};
ghost use Rattle.abc_lines.specs.Edits.{deletion, insertion, replacement};
ghost use Rattle.abc_live.specs.Counting.{MayCost, cost_of};
ghost use Rattle.abc_live.specs.Edit.{splice_of};
ghost use Rattle.abc_tune.specs.Abc.{rules_of_abc, steps_of_abc};
ghost use Rattle.c_handle.specs.Slot.{session_in};
ghost use Rattle.abc_lines.specs.TextLines.{lines_in};
ghost use Rattle.c_handle.specs.Sessions.{CostsSlot, CountsNoRefusal, Edits, EditsSlot};

use crate::codes::{CODE_MISUSED, CODE_OK, code_of};
use crate::open_session::OpenSession;
use crate::refusal::{refuse_insertion, refuse_replacement};
use crate::slot::SessionSlot;
use abc_fold::Work;
use abc_lines::lines_of_text;
use abc_live::Edit;
use std::alloc::Global;

/// Edits the text of a session, and keeps the report.
pub(crate) fn edit_session(held: &mut OpenSession, edit: &Edit, work: &mut Work) -> u32
    ensures value { Edits (splice_of edit.now) held.old result held.new }
    ensures counted { MayCost (cost_of steps_of_abc rules_of_abc held.old.session.text (splice_of edit.now)) work.old work.new }
    ensures uncounted { CountsNoRefusal result work.old work.new }
{
    match held.session.apply(edit, work) {
        Ok(report) => {
            held.report = report;
            CODE_OK
        }
        Err(error) => code_of(error),
    }
}

/// Edits the text of the session in a slot.
fn edit_slot(alloc: Global, slot: &mut SessionSlot, edit: &Edit, work: &mut Work) -> u32
    ensures value { EditsSlot (splice_of edit.now) (session_in slot.old) result (session_in slot.new) }
    ensures empty { session_in slot.old ≡ None → slot.new ≡ slot.old }
    ensures counted { CostsSlot (splice_of edit.now) (session_in slot.old) work.old work.new }
    ensures uncounted { CountsNoRefusal result work.old work.new }
{
    match slot.take(alloc) {
        Some(mut session) => {
            let code = edit_session(&mut session, edit, work);
            slot.fill(session);
            code
        }
        None => CODE_MISUSED,
    }
}

/// Inserts the lines of a text before a line.
#[tactic(auto, using(crate::proofs::Sessions::unworked_slot))]
pub fn insert_lines(
    alloc: Global,
    slot: &mut SessionSlot,
    at: u32,
    text: &[u8],
    work: &mut Work,
) -> u32
    ensures value { EditsSlot (insertion at (lines_in text.now)) (session_in slot.old) result (session_in slot.new) }
    ensures empty { session_in slot.old ≡ None → slot.new ≡ slot.old }
    ensures counted { CostsSlot (insertion at (lines_in text.now)) (session_in slot.old) work.old work.new }
    ensures uncounted { CountsNoRefusal result work.old work.new }
{
    match lines_of_text(alloc, text) {
        Ok(lines) => edit_slot(alloc, slot, &Edit::Insert { at, lines }, work),
        Err(_) => refuse_insertion(alloc, slot, at, text),
    }
}

/// Replaces the lines from one to another by the lines of a text.
#[tactic(auto, using(crate::proofs::Sessions::unworked_slot))]
pub fn replace_lines(
    alloc: Global,
    slot: &mut SessionSlot,
    from: u32,
    to: u32,
    text: &[u8],
    work: &mut Work,
) -> u32
    ensures value { EditsSlot (replacement from to (lines_in text.now)) (session_in slot.old) result (session_in slot.new) }
    ensures empty { session_in slot.old ≡ None → slot.new ≡ slot.old }
    ensures counted { CostsSlot (replacement from to (lines_in text.now)) (session_in slot.old) work.old work.new }
    ensures uncounted { CountsNoRefusal result work.old work.new }
{
    match lines_of_text(alloc, text) {
        Ok(lines) => edit_slot(alloc, slot, &Edit::Replace { from, to, lines }, work),
        Err(_) => refuse_replacement(alloc, slot, from, to, text),
    }
}

/// Deletes the lines from one to another.
pub fn delete_lines(
    alloc: Global,
    slot: &mut SessionSlot,
    from: u32,
    to: u32,
    work: &mut Work,
) -> u32
    ensures value { EditsSlot (deletion from to) (session_in slot.old) result (session_in slot.new) }
    ensures empty { session_in slot.old ≡ None → slot.new ≡ slot.old }
    ensures counted { CostsSlot (deletion from to) (session_in slot.old) work.old work.new }
    ensures uncounted { CountsNoRefusal result work.old work.new }
{
    edit_slot(alloc, slot, &Edit::Delete { from, to }, work)
}
