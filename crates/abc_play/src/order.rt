//! The order in which the sections of a tune with a file are played.

ghost use Rattle.std.specs.Prelude.{◌≡◌, All, None, false, IfErr, IfOk};
ghost use Rattle.abc_bars_items.specs.Item.{IsItem};
ghost use Rattle.abc_repeat.specs.Order.{sections_of};
ghost use Rattle.abc_voices.specs.Layout.{is_too_long};
ghost use Rattle.abc_voices.specs.Opening.{order_after, after_all};
ghost use Rattle.abc_voices_sections.specs.Items.{items_of};
ghost use Rattle.abc_voices_sections.specs.Section.{letters};
ghost use Rattle.abc_play.specs.declared.play_error.PlayError.TheVariants.{OutOfMemory};

use crate::play_error::PlayError;
use abc_bars_items::Item;
use abc_repeat::{OrderFault, play_order};
use abc_voices::order_of;
use abc_voices_sections::letters;
use std::alloc::Global;

/// Returns the sections of a tune in order of play. A tune with a file does not have too many, so the only error is a failed
/// allocation.
pub(crate) fn order_of_sections(alloc: Global, tune: &[&Item]) -> Result<Vec<usize>, PlayError>
    requires items { All IsItem (items_of tune.now) }
    requires short { is_too_long (items_of tune.now) ≡ false }
    ensures value { IfOk result (λ played. played.items
        ≡ sections_of (after_all order_after None (items_of tune.now)) (letters (items_of tune.now))) }
    ensures refused { IfErr result (λ e. e ≡ OutOfMemory) }
{
    let found = letters(alloc, tune)?;
    match play_order(alloc, order_of(tune), &found) {
        Ok(played) => Ok(played.sections),
        Err(OrderFault::TooLong { unknown: _unknown }) => Err(PlayError::TooLong),
        Err(OrderFault::OutOfMemory) => Err(PlayError::OutOfMemory),
    }
}
