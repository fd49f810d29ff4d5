//! Calls that read the text of a session.

ghost use Rattle.std.specs.Prelude.{◌≡◌, option_map};
ghost use Rattle.c_handle.specs.Slot.{session_in};
ghost use Rattle.c_handle.specs.Answers.{count_answer, line_in, lines_count};
ghost use Rattle.c_handle.specs.Copies.{slot_answer};

use crate::copying::{CopyAnswer, copy_found};
use crate::slot::{SessionSlot, count_in_session, read_session};
use std::alloc::Global;

/// Counts the lines, and returns `CODE_OK`; or `CODE_MISUSED` with 0 lines if the slot has no session.
pub fn count_lines(alloc: Global, slot: &mut SessionSlot, count: &mut u32) -> u32
    ensures unchanged { session_in slot.new ≡ session_in slot.old }
    ensures empty { session_in slot.old ≡ None → slot.new ≡ slot.old }
    ensures value { (result, count.new) ≡ count_answer (option_map lines_count (session_in slot.old)) }
{
    count_in_session!(slot, alloc, count, session => session.session.line_count())
}

/// Copies the bytes of a line, counted from 1.
pub fn copy_line(alloc: Global, slot: &mut SessionSlot, number: u32, bytes: &mut [u8]) -> CopyAnswer
    ensures unchanged { session_in slot.new ≡ session_in slot.old }
    ensures empty { session_in slot.old ≡ None → slot.new ≡ slot.old }
    ensures value { (result.code, result.count, bytes.new)
        ≡ slot_answer (option_map (line_in number) (session_in slot.old)) bytes.old }
{
    read_session!(slot, alloc, session => copy_found(session.session.line(number), bytes))
}
