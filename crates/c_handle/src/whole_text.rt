//! The call that gives a session a whole text.

ghost use Rattle.std.specs.Prelude.{◌≡◌, None};
ghost use Rattle.abc_lines.specs.TextLines.{lines_in};
ghost use Rattle.c_handle.specs.Sessions.{CountsNoRefusal, EditsBy};
ghost use Rattle.c_handle.specs.Slot.{session_in};
ghost use Rattle.c_handle.specs.TextChange.{whole_text};
ghost use Rattle.c_handle.specs.WholeText.{CostsText, CostsTextOfSlot, SetsSlot};

use crate::codes::{CODE_MISUSED, CODE_OUT_OF_MEMORY, code_of};
use crate::editing::edit_session;
use crate::open_session::OpenSession;
use crate::slot::SessionSlot;
use crate::text_change::edit_to;
use abc_fold::Work;
use abc_lines::limit_error;
use std::alloc::Global;

/// Gives a session a text by one edit, and keeps the report.
fn set_text_of(alloc: Global, held: &mut OpenSession, text: &[u8], work: &mut Work) -> u32
    ensures value { EditsBy (whole_text (lines_in text.now)) held.old result held.new }
    ensures counted { CostsText (lines_in text.now) held.old work.old work.new }
    ensures uncounted { CountsNoRefusal result work.old work.new }
{
    if let Some(error) = limit_error(0, text) {
        return code_of(error);
    }
    match edit_to(alloc, &held.session, text) {
        Ok(edit) => edit_session(held, &edit, work),
        Err(_) => CODE_OUT_OF_MEMORY,
    }
}

/// Gives the session in a slot a text.
pub fn set_text(alloc: Global, slot: &mut SessionSlot, text: &[u8], work: &mut Work) -> u32
    ensures value { SetsSlot (lines_in text.now) (session_in slot.old) result (session_in slot.new) }
    ensures empty { session_in slot.old ≡ None → slot.new ≡ slot.old }
    ensures counted { CostsTextOfSlot (lines_in text.now) (session_in slot.old) work.old work.new }
    ensures uncounted { CountsNoRefusal result work.old work.new }
{
    match slot.take(alloc) {
        Some(mut session) => {
            let code = set_text_of(alloc, &mut session, text, work);
            slot.fill(session);
            code
        }
        None => CODE_MISUSED,
    }
}
