//! Calls that read the MIDI files of a session.

ghost use Rattle.std.specs.Prelude.{◌≡◌, option_map};
ghost use Rattle.c_handle.specs.Slot.{session_in};
ghost use Rattle.c_handle.specs.Answers.{numbers_in, output_in};
ghost use Rattle.c_handle.specs.Copies.{slot_answer};

use crate::copying::{CopyAnswer, copy, copy_found};
use crate::slot::{SessionSlot, read_session};
use std::alloc::Global;

/// Copies the reference numbers that have a file, rising.
pub fn copy_numbers(alloc: Global, slot: &mut SessionSlot, numbers: &mut [u32]) -> CopyAnswer
    ensures unchanged { session_in slot.new ≡ session_in slot.old }
    ensures empty { session_in slot.old ≡ None → slot.new ≡ slot.old }
    ensures value { (result.code, result.count, numbers.new)
        ≡ slot_answer (option_map numbers_in (session_in slot.old)) numbers.old }
{
    read_session!(slot, alloc, session => copy(session.session.numbers(), numbers))
}

/// Copies the bytes of a number's file.
pub fn copy_output(
    alloc: Global,
    slot: &mut SessionSlot,
    number: u32,
    bytes: &mut [u8],
) -> CopyAnswer
    ensures unchanged { session_in slot.new ≡ session_in slot.old }
    ensures empty { session_in slot.old ≡ None → slot.new ≡ slot.old }
    ensures value { (result.code, result.count, bytes.new)
        ≡ slot_answer (option_map (output_in number) (session_in slot.old)) bytes.old }
{
    read_session!(slot, alloc, session => copy_found(session.session.output(number), bytes))
}
