//! Fermatas.

ghost use Rattle.std.specs.Prelude.{◌≡◌, ◌*◌, ◌≤◌, ◌↔◌, IsTrue, nat_le};
ghost use Rattle.abc_time.specs.Grains.{grains_of_the_longest_length};

use abc_time::{Grains, WHOLE_NOTE};

/// The longest length that a fermata doubles: 512 whole notes. Not in ABC 2.1.
const LONGEST_HELD: Grains = Grains(512 * WHOLE_NOTE.0);

/// Returns whether a length that a fermata doubles is no longer than a note may be (ABC 2.1 section 4.14).
#[tactic(auto, unfolding(abc_time::specs::Grains::grains_of_a_whole_note, abc_time::specs::Grains::grains_of_the_longest_length))]
pub fn has_room_for_fermata(length: Grains) -> bool
    ensures value { result ≡ nat_le (2 * length.0) grains_of_the_longest_length }
    ensures exact { IsTrue result ↔ (2 * length.0 ≤ grains_of_the_longest_length) }
{
    length.0 <= LONGEST_HELD.0
}
