//! Chords whose tones begin one after another.

ghost use Rattle.std.specs.Prelude.{◌≡◌, ◌*◌, ◌-◌, ◌≤◌};
ghost use Rattle.abc_perform_note.specs.Spread.{spread_step};

use abc_time::{Grains, WHOLE_NOTE};

/// A 64th of a whole note, the longest step of a spread chord. Not in ABC 2.1.
const SIXTY_FOURTH: Grains = Grains(WHOLE_NOTE.0 / 64);

/// Returns how long each of the steps before the last tone of a spread chord is: a 64th of a whole note, and all together
/// at most half of the chord (ABC 2.1 section 4.14).
pub fn spread_step(length: Grains, tones: usize) -> Grains
    requires { 2 ≤ tones }
    ensures value { result.0 ≡ spread_step length.0 tones }
    ensures half { 2 * ((tones - 1) * result.0) ≤ length.0 }
{
    let steps = tones as u64 - 1;
    Grains(SIXTY_FOURTH.0.min(length.0 / 2 / steps))
}
