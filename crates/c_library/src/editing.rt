//! Calls that edit the text of a session.

ghost use Rattle.std.specs.Prelude.{◌≡◌};
ghost use Rattle.c_handle.specs.Edits.{deletion, insertion, replacement};
ghost use Rattle.c_handle.specs.TextLines.{lines_in};
ghost use Rattle.c_handle.specs.Sessions.{CostsSlot, CountsNoRefusal, EditsSlot};
ghost use Rattle.c_handle.specs.Slot.{session_in};
ghost use Rattle.c_handle.specs.WholeText.{CostsTextOfSlot, SetsSlot};

use c_handle::{SessionSlot, Work, delete_lines, insert_lines, replace_lines, set_text};
use std::alloc::Global;

/// Inserts the lines of a text before a line.
#[unsafe(no_mangle)]
pub extern "C" fn abc_live_insert(
    alloc: Global,
    slot: &mut SessionSlot,
    at: u32,
    text: &[u8],
    work: &mut Work,
) -> u32
    ensures value { EditsSlot (insertion at (lines_in text.now)) (session_in slot.old) result (session_in slot.new) }
    ensures empty { session_in slot.old ≡ None → slot.new ≡ slot.old }
    ensures counted { CostsSlot (insertion at (lines_in text.now)) (session_in slot.old) work.old work.new }
    ensures uncounted { CountsNoRefusal result work.old work.new }
{
    insert_lines(alloc, slot, at, text, work)
}

/// Replaces the lines from one to another by the lines of a text.
#[unsafe(no_mangle)]
pub extern "C" fn abc_live_replace(
    alloc: Global,
    slot: &mut SessionSlot,
    from: u32,
    to: u32,
    text: &[u8],
    work: &mut Work,
) -> u32
    ensures value { EditsSlot (replacement from to (lines_in text.now)) (session_in slot.old) result (session_in slot.new) }
    ensures empty { session_in slot.old ≡ None → slot.new ≡ slot.old }
    ensures counted { CostsSlot (replacement from to (lines_in text.now)) (session_in slot.old) work.old work.new }
    ensures uncounted { CountsNoRefusal result work.old work.new }
{
    replace_lines(alloc, slot, from, to, text, work)
}

/// Deletes the lines from one to another.
#[unsafe(no_mangle)]
pub extern "C" fn abc_live_delete(
    alloc: Global,
    slot: &mut SessionSlot,
    from: u32,
    to: u32,
    work: &mut Work,
) -> u32
    ensures value { EditsSlot (deletion from to) (session_in slot.old) result (session_in slot.new) }
    ensures empty { session_in slot.old ≡ None → slot.new ≡ slot.old }
    ensures counted { CostsSlot (deletion from to) (session_in slot.old) work.old work.new }
    ensures uncounted { CountsNoRefusal result work.old work.new }
{
    delete_lines(alloc, slot, from, to, work)
}

/// Gives the session a whole text, by one edit of the lines that differ.
#[unsafe(no_mangle)]
pub extern "C" fn abc_live_set_text(
    alloc: Global,
    slot: &mut SessionSlot,
    text: &[u8],
    work: &mut Work,
) -> u32
    ensures value { SetsSlot (lines_in text.now) (session_in slot.old) result (session_in slot.new) }
    ensures empty { session_in slot.old ≡ None → slot.new ≡ slot.old }
    ensures counted { CostsTextOfSlot (lines_in text.now) (session_in slot.old) work.old work.new }
    ensures uncounted { CountsNoRefusal result work.old work.new }
{
    set_text(alloc, slot, text, work)
}
