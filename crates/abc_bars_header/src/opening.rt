//! The tempo and the meter with which a tune begins.

ghost use Rattle.std.specs.Prelude.{◌≡◌};
ghost use Rattle.abc_bars_items.specs.Item.{IsItem};
ghost use Rattle.abc_bars_header.specs.Opening.{opening_tempo, opening_meter};

use crate::defaults::{Defaults, meter_in, unit_in};
use abc_bars_items::Item;
use abc_bars_voice::tempo_item;

/// The tempo with which a tune begins whose header ends with these values.
pub(crate) fn opening_tempo(defaults: &Defaults) -> Item
    ensures value { result ≡ opening_tempo defaults.now }
    ensures range { IsItem result }
{
    match defaults.tempo {
        Some(tempo) => tempo_item(true, unit_in(defaults), tempo),
        None => Item::Tempo {
            opening: true,
            micros: None,
            out: false,
        },
    }
}

/// The meter with which a tune begins whose header ends with these values.
pub(crate) fn opening_meter(defaults: &Defaults) -> Item
    ensures value { result ≡ opening_meter defaults.now }
    ensures range { IsItem result }
{
    Item::Meter {
        opening: true,
        meter: Some(meter_in(defaults).get()),
    }
}
