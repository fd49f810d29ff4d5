//! Calls that read the report of the last edit.

ghost use Rattle.std.specs.Prelude.{◌≡◌, option_map};
ghost use Rattle.c_handle.specs.Slot.{session_in};
ghost use Rattle.c_handle.specs.Answers.{removed_in, written_in};
ghost use Rattle.c_handle.specs.Copies.{slot_answer};

use crate::copying::{CopyAnswer, copy};
use crate::slot::{SessionSlot, read_session};
use std::alloc::Global;

/// Copies the numbers whose files the last edit wrote, rising.
pub fn copy_written(alloc: Global, slot: &mut SessionSlot, numbers: &mut [u32]) -> CopyAnswer
    ensures unchanged { session_in slot.new ≡ session_in slot.old }
    ensures empty { session_in slot.old ≡ None → slot.new ≡ slot.old }
    ensures value { (result.code, result.count, numbers.new)
        ≡ slot_answer (option_map written_in (session_in slot.old)) numbers.old }
{
    read_session!(slot, alloc, session => copy(&session.report.written, numbers))
}

/// Copies the numbers whose files the last edit removed, rising.
pub fn copy_removed(alloc: Global, slot: &mut SessionSlot, numbers: &mut [u32]) -> CopyAnswer
    ensures unchanged { session_in slot.new ≡ session_in slot.old }
    ensures empty { session_in slot.old ≡ None → slot.new ≡ slot.old }
    ensures value { (result.code, result.count, numbers.new)
        ≡ slot_answer (option_map removed_in (session_in slot.old)) numbers.old }
{
    read_session!(slot, alloc, session => copy(&session.report.removed, numbers))
}
