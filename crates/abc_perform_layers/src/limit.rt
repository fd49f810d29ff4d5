//! The longest that a layer of a stretch may be.

ghost use Rattle.std.specs.Prelude.{◌≡◌, ◌<◌, ◌≤◌, MatchOption};
ghost use Rattle.abc_time.specs.Grains.{grains_of_the_longest_length};
ghost use Rattle.abc_perform_layers.specs.Limit.{fits_from, time_after};

use crate::role::Role;
use abc_time::{Grains, WHOLE_NOTE};

/// The longest that a layer of a stretch may be. Not in ABC 2.1.
const LONGEST_LAYER: Grains = Grains(1_024 * WHOLE_NOTE.0);

/// Returns how long a layer is after a step of it, unless it is then longer than it may be.
#[tactic(auto, unfolding(abc_time::specs::Grains::grains_of_a_whole_note, abc_time::specs::Grains::grains_of_the_longest_length))]
fn time_after(time: Grains, role: Role) -> Option<Grains>
    requires { time.0 ≤ grains_of_the_longest_length }
    ensures { MatchOption result (grains_of_the_longest_length < time_after time.0 role)
        (λ after. (after.0 ≡ time_after time.0 role) × (after.0 ≤ grains_of_the_longest_length)) }
{
    match role {
        Role::Time(length) => {
            if length.0 <= LONGEST_LAYER.0 - time.0 {
                Some(Grains(time.0 + length.0))
            } else {
                None
            }
        }
        Role::Bound | Role::Overlay => Some(Grains(0)),
        Role::Program | Role::Other => Some(time),
    }
}

/// Returns whether no layer of a stretch is longer than 1,024 whole notes. Not in ABC 2.1.
pub fn layers_fit(roles: &[Role]) -> bool
    ensures { result ≡ fits_from 0 roles.now }
{
    let mut time = Grains(0);
    for role in roles {
        match time_after(time, *role) {
            Some(after) => time = after,
            None => return false,
        }
    }
    true
}
