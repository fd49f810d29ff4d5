//! Rests of whole bars.

ghost use Rattle.std.specs.Prelude.{◌≡◌, ◌≤◌, ◌↔◌, ℕ, [], IfSome};
ghost use Rattle.abc_fields.specs.Meter.{HasMeterRange};
ghost use Rattle.abc_time.specs.Grains.{grains_of_the_longest_length};
ghost use Rattle.abc_time.specs.Length.{IsLength};
ghost use Rattle.abc_bars_notes.specs.BarRest.{AreBars, bar_grains, bars_of, bar_rest_length, bar_rest_of};
ghost use Rattle.abc_bars_items.specs.Item.{IsItem};

use crate::lengths::ratio_of;
use abc_bars_items::Item;
use abc_bars_voice::TuneMeter;
use abc_fields::{FaultCode, Meter};
use abc_time::{Grains, Ratio, WHOLE_NOTE, length};

/// The length of one bar, exactly.
fn bar_grains(num: u8, den: u8) -> Grains
    requires { HasMeterRange num den }
    ensures value { result ≡ bar_grains num den }
    ensures exact { IsLength (record { num = num; den = den }) [] result.0 }
    ensures range { result.0 ≤ grains_of_the_longest_length }
{
    Grains(WHOLE_NOTE.0 / u64::from(den) * u64::from(num))
}

/// The length of several bars, if there is at least one and they are at most 1,024 whole notes together.
fn bars_of(num: u8, den: u8, bars: u32) -> Option<Grains>
    requires { HasMeterRange num den }
    ensures value { result ≡ bars_of num den bars }
    ensures exact { (g : ℕ) → (result ≡ Some (record { 0 = g })) ↔ AreBars num den bars g }
    ensures range { IfSome result (λ length. length.0 ≤ grains_of_the_longest_length) }
{
    let bar = Ratio {
        num: u32::from(num),
        den: u32::from(den),
    };
    let factor = ratio_of(bars, 1)?;
    length(bar, &[factor]).ok()
}

/// The length of a rest of bars, and its fault.
fn bar_rest_length(meter: TuneMeter, bars: Option<u32>) -> (Grains, Option<FaultCode>)
    ensures value { result ≡ bar_rest_length meter bars }
    ensures range { result.0.0 ≤ grains_of_the_longest_length }
{
    match (meter.get(), bars) {
        (Meter::Free, _) => (Grains(0), Some(FaultCode::FreeBarRest)),
        (Meter::Of { num, den }, None) => (bar_grains(num, den), None),
        (Meter::Of { num, den }, Some(bars)) => match bars_of(num, den, bars) {
            Some(length) => (length, None),
            None => (bar_grains(num, den), Some(FaultCode::BadLength)),
        },
    }
}

/// The item of a rest of bars, and its fault (ABC 2.1 section 4.5).
pub fn bar_rest_of(meter: TuneMeter, bars: Option<u32>) -> (Item, Option<FaultCode>)
    ensures value { result ≡ bar_rest_of meter bars }
    ensures range { IsItem result.0 }
{
    let (length, fault) = bar_rest_length(meter, bars);
    (Item::Rest { length, bar: true }, fault)
}
