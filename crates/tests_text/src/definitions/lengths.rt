//! Lengths and ticks, by the definitions of `abc_time`.
#![tactic(auto, unfolding(crate::specs::Opened::times))]

ghost use Rattle.std.specs.Prelude.{◌≡◌, ◌*◌, ◌^◌, ◌+◌, [], ◌∷◌};
ghost use Rattle.abc_time.specs.Grains.{grains_of_a_whole_note, grains_of_a_tick, grains_of_the_longest_length};
ghost use Rattle.abc_time.specs.Grains.{grains_of_the_latest_end, tick_at};
ghost use Rattle.abc_time.specs.Length.{IsLength, length_of, quotient_of};
ghost use Rattle.abc_time.specs.declared.lengths.LengthFault.TheVariants.{NotWhole, TooLong};
ghost use Rattle.tests_text.specs.Values.{ratio, at_tick};

/// A whole note is `2^16 * 3^4 * 5^2 * 7^2 * 11 * 13` grains and 1,920 ticks. Not in ABC 2.1.
pub fn grains_and_ticks()
    ensures whole_note { grains_of_a_whole_note ≡ 2 ^ 16 * 3 ^ 4 * 5 ^ 2 * 7 ^ 2 * 11 * 13 }
    ensures ticks { 1920 * grains_of_a_tick ≡ grains_of_a_whole_note }
    ensures longest_length { grains_of_the_longest_length ≡ 1024 * 929901772800 }
    ensures latest_end { grains_of_the_latest_end ≡ 131072 * 929901772800 }
{}

/// The lengths `C3/2 C/ C// C1/17 C` at a unit of an eighth, 240 ticks; a seventeenth of it is not whole. ABC 2.1
/// section 4.3; the grains are not in ABC 2.1.
pub fn lengths_of_notes()
    ensures three_halves { length_of (ratio 1 8) (ratio 3 2 ∷ []) ≡ Ok (at_tick 360) }
    ensures half { length_of (ratio 1 8) (ratio 1 2 ∷ []) ≡ Ok (at_tick 120) }
    ensures quarter { length_of (ratio 1 8) (ratio 1 4 ∷ []) ≡ Ok (at_tick 60) }
    ensures seventeenth { length_of (ratio 1 8) (ratio 1 17 ∷ []) ≡ Err NotWhole }
    ensures plain { length_of (ratio 1 8) [] ≡ Ok (at_tick 240) }
{}

/// `A>>>B` at a unit of an eighth: 450 ticks and 30. ABC 2.1 section 4.4.
pub fn broken_rhythm()
    ensures longer { length_of (ratio 1 8) (ratio 15 8 ∷ []) ≡ Ok (at_tick 450) }
    ensures shorter { length_of (ratio 1 8) (ratio 1 8 ∷ []) ≡ Ok (at_tick 30) }
{}

/// Seven eighths in the time of four: ticks are rounded down from moments, so the seventh ends at tick 960 and each note
/// begins within one tick of its moment. ABC 2.1 section 4.13; the rounding is not in ABC 2.1.
pub fn seven_in_the_time_of_four()
    ensures length { length_of (ratio 1 8) (ratio 4 7 ∷ []) ≡ Ok (record { 0 = 66421555200 }) }
    ensures exact { IsLength (ratio 1 8) (ratio 4 7 ∷ []) 66421555200 }
    ensures first { tick_at 66421555200 ≡ 137 }
    ensures second { tick_at (2 * 66421555200) ≡ 274 }
    ensures third { tick_at (3 * 66421555200) ≡ 411 }
    ensures fourth { tick_at (4 * 66421555200) ≡ 548 }
    ensures fifth { tick_at (5 * 66421555200) ≡ 685 }
    ensures sixth { tick_at (6 * 66421555200) ≡ 822 }
    ensures seventh { tick_at (7 * 66421555200) ≡ 960 }
{}

/// One grain is a length and half of one is not; 1,024 whole notes are one, and a grain or a note more is not.
/// `NotWhole` comes first. Not in ABC 2.1.
pub fn limits_of_lengths()
    ensures one_grain { length_of (ratio 1 132710400) (ratio 1 7007 ∷ []) ≡ Ok (record { 0 = 1 }) }
    ensures half_a_grain { length_of (ratio 1 132710400) (ratio 1 7007 ∷ ratio 1 2 ∷ []) ≡ Err NotWhole }
    ensures longest { length_of (ratio 1 1) (ratio 1024 1 ∷ []) ≡ Ok (record { 0 = 1024 * 929901772800 }) }
    ensures longer { length_of (ratio 1 1) (ratio 1025 1 ∷ []) ≡ Err TooLong }
    ensures longer_by_a_grain { quotient_of (1024 * 929901772800 + 1) 1 ≡ Err TooLong }
    ensures longer_and_not_whole { length_of (ratio 999999999 1) (ratio 999999999 17 ∷ []) ≡ Err NotWhole }
{}

/// Products far beyond 128 bits. Not in ABC 2.1.
pub fn lengths_of_many_factors()
    ensures back_at_one { let greatest = ratio 999999999 1 in let least = ratio 1 999999999 in
        length_of greatest (least ∷ greatest ∷ least ∷ least ∷ greatest ∷ []) ≡ Ok (at_tick 1920) }
    ensures greatest { let greatest = ratio 999999999 1 in
        length_of greatest (greatest ∷ greatest ∷ greatest ∷ greatest ∷ greatest ∷ []) ≡ Err TooLong }
    ensures greatest_and_not_whole { let greatest = ratio 999999999 1 in
        length_of greatest (greatest ∷ greatest ∷ greatest ∷ greatest ∷ ratio 1 17 ∷ []) ≡ Err NotWhole }
{}

/// The tick of a moment: the first, a grain before and at the next, a whole note, the latest end. Not in ABC 2.1.
pub fn ticks()
    ensures first { tick_at 0 ≡ 0 }
    ensures before { tick_at 484323839 ≡ 0 }
    ensures at { tick_at 484323840 ≡ 1 }
    ensures whole_note { tick_at 929901772800 ≡ 1920 }
    ensures latest_end { tick_at (131072 * 929901772800) ≡ 251658240 }
{}
