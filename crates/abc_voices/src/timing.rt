//! The items that take time, and the end of notes.

ghost use Rattle.std.specs.Prelude.{◌≡◌};
ghost use Rattle.std.specs.List.{list_any};
ghost use Rattle.abc_voices_sections.specs.Items.{items_of};
ghost use Rattle.abc_voices.specs.Layout.{takes_time, last_off};

use abc_bars_items::Item;
use abc_time::Grains;
use abc_voices_score::Sounding;

/// Returns the later of a moment and the last end of some notes.
pub(crate) fn last_off(at: Grains, notes: &[Sounding]) -> Grains
    ensures { result.0 ≡ last_off at.0 notes.now }
{
    let mut last = at;
    for note in notes {
        last = last.max(note.off);
    }
    last
}

/// Whether an item takes time: a note, a chord, a rest or a bar rest.
fn takes_time(item: &Item) -> bool
    ensures { result ≡ takes_time item.now }
{
    matches!(item, Item::Tone { .. } | Item::Rest { .. })
}

/// Whether an item of a play takes time.
pub(crate) fn plays_time(steps: &[&Item]) -> bool
    ensures { result ≡ list_any takes_time (items_of steps.now) }
{
    for step in steps {
        if takes_time(step) {
            return true;
        }
    }
    false
}
