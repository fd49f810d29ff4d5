//! The velocities of notes.

ghost use Rattle.std.specs.Prelude.{◌≡◌};
ghost use Rattle.abc_bars_items.specs.Velocity.{velocity_of, IsVelocity};

use abc_scan::Dynamic;

/// The highest velocity (MIDI 1.0).
pub const HIGHEST_VELOCITY: u8 = 127;

/// The velocity of notes without a dynamic before them. Not in ABC 2.1.
pub const USUAL_VELOCITY: u8 = 80;

/// The MIDI velocity of notes, 1 to 127, by the last dynamic before them in their voice (ABC 2.1 section 4.14). The
/// numbers are not in ABC 2.1.
pub fn velocity_of(dynamic: Option<Dynamic>) -> u8
    ensures value { result ≡ velocity_of dynamic }
    ensures range { IsVelocity result }
{
    match dynamic {
        Some(dynamic) => dynamic.velocity(),
        None => USUAL_VELOCITY,
    }
}
