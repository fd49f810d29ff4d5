//! Changes of tempo, meter, key and program, at their moments.

ghost use Rattle.std.specs.Prelude.{◌≡◌, ◌+◌, ◌++◌, ◌≤◌, Option, OnOk};
ghost use Rattle.abc_bars_items.specs.declared.item.Item.{Item};
ghost use Rattle.abc_time.specs.Grains.{grains_of_the_latest_end};
ghost use Rattle.abc_voices_sections.specs.Items.{items_of};
ghost use Rattle.abc_voices.specs.Change.{tempo_of, meter_of, key_of, program_of, set_from};
ghost use Rattle.abc_voices_sections.specs.Play.{duration};

use abc_bars_items::Item;
use abc_fields::Meter;
use abc_time::Grains;
use abc_voices_sections::length_of;
use std::alloc::AllocError;

/// A sort of changes: tempos, meters, keys or programs.
pub(crate) trait Setting {
    /// The value that a change of this sort sets.
    type Value: Copy;

    // The value that an item sets, if it is of this sort.
    ghost value_of: { Item → Option Self.Value };

    /// Returns the value that an item sets, if it is of this sort.
    fn value_of(item: &Item) -> Option<Self::Value>
        ensures { result ≡ value_of item.now };
}

/// Tempos, as the microseconds of a quarter note.
pub(crate) struct Tempos;

impl Setting for Tempos {
    type Value = u32;

    ghost value_of = { tempo_of };

    fn value_of(item: &Item) -> Option<u32> {
        match item {
            Item::Tempo { micros, .. } => *micros,
            _ => None,
        }
    }
}

/// Meters, free meter among them.
pub(crate) struct Meters;

impl Setting for Meters {
    type Value = Meter;

    ghost value_of = { meter_of };

    fn value_of(item: &Item) -> Option<Meter> {
        match item {
            Item::Meter { meter, .. } => *meter,
            _ => None,
        }
    }
}

/// Keys: their sharps, and whether they are minor.
pub(crate) struct Keys;

impl Setting for Keys {
    type Value = (i8, bool);

    ghost value_of = { key_of };

    fn value_of(item: &Item) -> Option<(i8, bool)> {
        match item {
            Item::Key { key, .. } => *key,
            _ => None,
        }
    }
}

/// Programs, as MIDI counts them.
pub(crate) struct Programs;

impl Setting for Programs {
    type Value = u8;

    ghost value_of = { program_of };

    fn value_of(item: &Item) -> Option<u8> {
        match item {
            Item::Program { number, .. } => *number,
            _ => None,
        }
    }
}

/// Appends the values of items that are played one after another from a moment on.
#[tactic(auto, unfolding(abc_time::specs::Grains::grains_of_a_whole_note, abc_time::specs::Grains::grains_of_the_latest_end))]
pub(crate) fn put_set<S: Setting>(
    sets: &mut Vec<(Grains, S::Value)>,
    start: Grains,
    steps: &[&Item],
) -> Result<(), AllocError>
    requires { start.0 + duration (items_of steps.now) ≤ grains_of_the_latest_end }
    ensures { OnOk result (sets.new.items
        ≡ sets.old.items ++ set_from S.value_of start.0 (items_of steps.now)) }
{
    let mut at = start;
    for step in steps {
        if let Some(value) = S::value_of(step) {
            sets.push((at, value))?;
        }
        at.0 += length_of(step).0;
    }
    Ok(())
}
