//! The tempo, meter, key and program with which a tune opens, its title and the order of its parts.

ghost use Rattle.std.specs.Prelude.{◌≡◌, None, option_copied};
ghost use Rattle.abc_voices_sections.specs.Items.{items_of};
ghost use Rattle.abc_voices.specs.Opening.{tempo_after, meter_after, key_after, program_after, order_after, after_all, title_of};

use abc_bars_items::Item;
use abc_fields::Meter;

/// Returns the microseconds of a quarter note with which a tune opens, if its header sets a tempo.
pub(crate) fn opening_tempo(tune: &[&Item]) -> Option<u32>
    ensures { result ≡ after_all tempo_after None (items_of tune.now) }
{
    let mut tempo = None;
    for item in tune {
        if let Item::Tempo {
            opening: true,
            micros,
            ..
        } = item
        {
            tempo = *micros;
        }
    }
    tempo
}

/// Returns the meter with which a tune opens, if it has one.
pub(crate) fn opening_meter(tune: &[&Item]) -> Option<Meter>
    ensures { result ≡ after_all meter_after None (items_of tune.now) }
{
    let mut meter = None;
    for item in tune {
        if let Item::Meter {
            opening: true,
            meter: set,
        } = item
        {
            meter = *set;
        }
    }
    meter
}

/// Returns the key with which a tune opens, if it has one: its sharps, and whether it is minor.
pub(crate) fn opening_key(tune: &[&Item]) -> Option<(i8, bool)>
    ensures { result ≡ after_all key_after None (items_of tune.now) }
{
    let mut key = None;
    for item in tune {
        if let Item::Key {
            opening: true,
            key: set,
        } = item
        {
            key = *set;
        }
    }
    key
}

/// Returns the program with which a tune opens, if its header sets one.
pub(crate) fn opening_program(tune: &[&Item]) -> Option<u8>
    ensures { result ≡ after_all program_after None (items_of tune.now) }
{
    let mut program = None;
    for item in tune {
        if let Item::Program {
            opening: true,
            number: Some(number),
        } = item
        {
            program = Some(*number);
        }
    }
    program
}

/// Returns the order of a tune's parts, if its header has one.
pub fn order_of<'a>(tune: &[&'a Item]) -> Option<&'a [u8]>
    ensures { option_copied result ≡ after_all order_after None (items_of tune.now) }
{
    let mut order: Option<&'a [u8]> = None;
    for item in tune {
        if let Item::Order(text) = item {
            order = Some(text.as_slice());
        }
    }
    order
}

/// Returns the title of a tune, empty if it has none.
pub(crate) fn title_of<'a>(tune: &[&'a Item]) -> &'a [u8]
    ensures { result.now ≡ title_of (items_of tune.now) }
{
    for item in tune {
        if let Item::Title(text) = item {
            return text.as_slice();
        }
    }
    &[]
}
