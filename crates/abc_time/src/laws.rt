//! The numbers of the constants. The function has no body: its contract is the law.

ghost use Rattle.std.specs.Prelude.{◌≡◌, ◌*◌, ◌^◌};
ghost use Rattle.abc_time.specs.Grains.{grains_of_a_tick, grains_of_a_whole_note, grains_of_the_latest_end};
ghost use Rattle.abc_time.specs.Grains.{grains_of_the_longest_length, tick_at};

use crate::grains::{LAST_TICK, LATEST_END, LONGEST_LENGTH, TICK, WHOLE_NOTE};

/// The constants are the numbers of the definitions. A whole note has 1,920 ticks, and `LATEST_END` falls on `LAST_TICK` (SMF
/// 1.0, division of the header chunk).
#[tactic(auto, using(crate::proofs::GrainNumbers::grain_numbers))]
pub fn grain_numbers()
    ensures whole_note { WHOLE_NOTE.0 ≡ grains_of_a_whole_note }
    ensures divisors { WHOLE_NOTE.0 ≡ 2 ^ 16 * 3 ^ 4 * 5 ^ 2 * 7 ^ 2 * 11 * 13 }
    ensures tick { TICK.0 ≡ grains_of_a_tick }
    ensures ticks { WHOLE_NOTE.0 ≡ 1920 * TICK.0 }
    ensures longest_length { LONGEST_LENGTH.0 ≡ grains_of_the_longest_length }
    ensures latest_end { LATEST_END.0 ≡ grains_of_the_latest_end }
    ensures last_tick { LAST_TICK ≡ tick_at grains_of_the_latest_end }
{}
