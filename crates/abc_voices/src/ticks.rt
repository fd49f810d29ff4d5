//! The last change of one sort at each tick.

ghost use Rattle.std.specs.Prelude.{◌≡◌, ◌≤◌, All, IfOk};
ghost use Rattle.abc_time.specs.Grains.{grains_of_the_latest_end};
ghost use Rattle.abc_voices.specs.Ticks.{last_of_each_tick};

use abc_time::{Grains, tick_of};
use std::alloc::{AllocError, Global};
use std::collections::HashSet;

/// Returns the last change of each tick, of many changes of one sort in order of play; the last of all first.
fn last_of_many<T: Copy>(
    alloc: Global,
    changes: &[(Grains, T)],
) -> Result<Vec<(Grains, T)>, AllocError>
    requires { All (λ change. change.0.0 ≤ grains_of_the_latest_end) changes.now }
    ensures { IfOk result (λ last_changes. last_changes.items ≡ last_of_each_tick changes.now) }
{
    let mut ticks = HashSet::new(alloc);
    let mut last_changes = Vec::new(alloc);
    let mut left = changes.len();
    while left > 0 {
        left -= 1;
        let change = changes[left];
        if ticks.insert(tick_of(change.0))? {
            last_changes.push(change)?;
        }
    }
    Ok(last_changes)
}

/// Returns the last change of each tick, of changes of one sort in order of play; the last of all first. Most tunes set each
/// sort once at most: then no ticks are compared.
pub(crate) fn last_of_each_tick<T: Copy>(
    alloc: Global,
    changes: &[(Grains, T)],
) -> Result<Vec<(Grains, T)>, AllocError>
    requires { All (λ change. change.0.0 ≤ grains_of_the_latest_end) changes.now }
    ensures { IfOk result (λ last_changes. last_changes.items ≡ last_of_each_tick changes.now) }
{
    if changes.len() <= 1 {
        Vec::from_slice(alloc, changes)
    } else {
        last_of_many(alloc, changes)
    }
}
