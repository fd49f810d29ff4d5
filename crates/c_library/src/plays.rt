//! The calls that read the play of a number.

ghost use Rattle.std.specs.Prelude.{◌≡◌, None};
ghost use Rattle.c_handle.specs.PlayRecords.{CopiesPlay, play_records, track_sizes};
ghost use Rattle.c_handle.specs.Slot.{session_in};

use c_handle::{PlayRecord, SessionSlot, copy_play, copy_tracks};
use std::alloc::Global;

/// Copies how many entries each track of a number's file has. The first is the conductor's, which has none.
#[unsafe(no_mangle)]
pub extern "C" fn abc_live_tracks(
    alloc: Global,
    slot: &mut SessionSlot,
    number: u32,
    sizes: &mut [usize],
    count: &mut usize,
) -> u32
    ensures unchanged { session_in slot.new ≡ session_in slot.old }
    ensures empty { session_in slot.old ≡ None → slot.new ≡ slot.old }
    ensures value { CopiesPlay track_sizes number (session_in slot.old) sizes.old (result, count.new, sizes.new) }
{
    let answer = copy_tracks(alloc, slot, number, sizes);
    *count = answer.count;
    answer.code
}

/// Copies the entries of a number's play, one track after another.
#[unsafe(no_mangle)]
pub extern "C" fn abc_live_play(
    alloc: Global,
    slot: &mut SessionSlot,
    number: u32,
    entries: &mut [PlayRecord],
    count: &mut usize,
) -> u32
    ensures unchanged { session_in slot.new ≡ session_in slot.old }
    ensures empty { session_in slot.old ≡ None → slot.new ≡ slot.old }
    ensures value { CopiesPlay play_records number (session_in slot.old) entries.old (result, count.new, entries.new) }
{
    let answer = copy_play(alloc, slot, number, entries);
    *count = answer.count;
    answer.code
}
