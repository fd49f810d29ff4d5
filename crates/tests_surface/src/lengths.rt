//! Lengths, ticks and tempos, by `abc_time`.

ghost use Rattle.std.specs.Prelude.{◌≡◌, ◌≤◌, All, length};
ghost use Rattle.abc_time.specs.Grains.{grains_of_the_latest_end, tick_at};
ghost use Rattle.abc_time.specs.Length.{length_of};
ghost use Rattle.abc_time.specs.Limits.{LARGEST_NUMBER};
ghost use Rattle.abc_time.specs.Ratio.{IsRatio};
ghost use Rattle.abc_time.specs.Tempo.{quarter_micros_of};

use abc_time::{Grains, LARGEST_NUMBER, LengthFault, Ratio, length, quarter_micros, tick_of};

/// The most beats per minute.
pub const MOST_BEATS: u32 = LARGEST_NUMBER;

/// Returns the length of a note.
pub fn note_length(unit: Ratio, factors: &[Ratio]) -> Result<Grains, LengthFault>
    requires unit { IsRatio unit }
    requires factors { All IsRatio factors.now }
    requires few { length factors.now ≤ 5 }
    ensures value { result ≡ length_of unit factors.now }
{
    length(unit, factors)
}

/// Returns the tick of a moment.
pub fn moment_tick(moment: Grains) -> u32
    requires { moment.0 ≤ grains_of_the_latest_end }
    ensures value { result ≡ tick_at moment.0 }
{
    tick_of(moment)
}

/// Returns the microseconds of a quarter note.
pub fn beat_micros(beat: Ratio, per_minute: u32) -> Option<u32>
    requires beat { IsRatio beat }
    requires some { 1 ≤ per_minute }
    requires few { per_minute ≤ LARGEST_NUMBER }
    ensures value { result ≡ quarter_micros_of beat per_minute }
{
    quarter_micros(beat, per_minute)
}

/// Whether a length is refused because it is too long.
pub fn is_too_long(fault: LengthFault) -> bool {
    match fault {
        LengthFault::NotWhole => false,
        LengthFault::TooLong => true,
    }
}
