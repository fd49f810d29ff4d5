//! The microseconds of a quarter note.

ghost use Rattle.std.specs.Prelude.{◌≡◌, ◌≤◌, ◌↔◌, ℕ, SomeIff};
ghost use Rattle.abc_text.specs.declared.digit.TheConstants.{LARGEST_NUMBER};
ghost use Rattle.abc_time.specs.Ratio.{IsRatio};
ghost use Rattle.abc_time.specs.Tempo.{in_tempo_event, quarter_micros_of, quarter_of, FitsInTempoEvent, IsQuarter};

use crate::ratio::Ratio;

/// A minute in microseconds.
const MINUTE: u64 = 60_000_000;

/// The most microseconds of a quarter note that a MIDI file can hold.
const LONGEST_QUARTER: u64 = 16_777_215;

/// Returns the microseconds of a quarter note, rounded down, if a minute has `per_minute` beats (ABC 2.1 section
/// 3.1.8). A MIDI file can hold 1 to 16,777,215; for a faster or slower beat the result is none.
pub fn quarter_micros(beat: Ratio, per_minute: u32) -> Option<u32>
    requires beat { IsRatio beat }
    requires some { 1 ≤ per_minute }
    requires few { per_minute ≤ LARGEST_NUMBER }
    ensures value { result ≡ quarter_micros_of beat per_minute }
    ensures exact { SomeIff result (FitsInTempoEvent (quarter_of beat per_minute)) (quarter_of beat per_minute) }

    // The same by the inequality of a number that is rounded down.
    ensures some { (micros : ℕ) → (result ≡ Some micros) ↔ IsQuarter beat per_minute micros }
    ensures none { (result ≡ None) ↔ ((micros : ℕ) → ¬ IsQuarter beat per_minute micros) }
{
    let quarters = 4 * u64::from(beat.num) * u64::from(per_minute);
    in_tempo_event(MINUTE * u64::from(beat.den) / quarters)
}

/// The microseconds, if the tempo event of a MIDI file can hold them in its three bytes.
fn in_tempo_event(micros: u64) -> Option<u32>
    ensures { result ≡ in_tempo_event micros }
{
    if micros == 0 || micros > LONGEST_QUARTER {
        None
    } else {
        Some(micros as u32)
    }
}
