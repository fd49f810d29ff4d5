//! The steps of a play.

use abc_bars_items::Item;
use abc_voices_sections::AsItem;

/// An item of a tune with its place, or a bar line that is passed.
#[derive(Clone, Copy)]
pub enum PlayStep<'t> {
    /// An item, and its index among the items of its tune.
    Item { item: &'t Item, place: usize },
    /// The bar line at an index is passed. It is played as a field directly before it would be.
    BarLine { place: usize },
}

impl<'t> AsItem for PlayStep<'t> {
    ghost use Rattle.abc_play_sections.specs.Step.{as_item};

    ghost item_of = { as_item };

    fn as_item(&self) -> Option<&Item> {
        match self {
            PlayStep::Item { item, .. } => Some(*item),
            PlayStep::BarLine { .. } => None,
        }
    }
}
