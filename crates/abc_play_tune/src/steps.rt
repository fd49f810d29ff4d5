//! The steps of a tune.

ghost use Rattle.std.specs.Prelude.{◌≡◌, IfOk};
ghost use Rattle.abc_play_tune.specs.Steps.{is_bar, steps_from};

use abc_bars_items::Item;
use abc_play_sections::PlayStep;
use std::alloc::{AllocError, Global};

/// Whether an item is a bar line.
fn is_bar(item: &Item) -> bool
    ensures { result ≡ is_bar item.now }
{
    matches!(item, Item::Bar(_))
}

/// Returns the steps of a tune: its items, and the passing of each bar line before it.
pub(crate) fn steps_of<'t>(
    alloc: Global,
    tune: &[&'t Item],
) -> Result<Vec<PlayStep<'t>>, AllocError>
    ensures { IfOk result (λ steps. steps.items ≡ steps_from 0 tune.now) }
{
    let mut steps = Vec::with_capacity(alloc, tune.len())?;
    for (place, item) in tune.iter().enumerate() {
        if is_bar(item) {
            steps.push(PlayStep::BarLine { place })?;
        }
        steps.push(PlayStep::Item { item: *item, place })?;
    }
    Ok(steps)
}
