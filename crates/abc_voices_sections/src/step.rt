//! The role of a step in the play of its voice.

ghost use Rattle.std.specs.Prelude.{◌≡◌, MatchOption};
ghost use Rattle.abc_bars_items.specs.declared.item.Item.{Item};
ghost use Rattle.abc_repeat.specs.Mark.{is_play, is_single};
ghost use Rattle.abc_voices_sections.specs.OwnItems.{is_own_after};
ghost use Rattle.abc_voices_sections.specs.Section.{is_step, is_section, voice_after};
ghost use Rattle.abc_voices_sections.specs.Step.{empty_field, is_field, mark_of, length_of};

use abc_bars_items::Item;
use abc_repeat::Mark;
use abc_time::Grains;

/// A step of a play: an item of a tune, with what else is known of it, or a step that no item gives.
pub trait AsItem: Copy {
    // The item as which it is played.
    ghost item_of: { Self → Item };

    /// Returns the item, or none for a step that no item gives: it is played as a field that sets nothing.
    fn as_item(&self) -> Option<&Item>
        ensures { MatchOption result (item_of self.now ≡ empty_field) (λ item. item.now ≡ item_of self.now) };
}

impl<'t> AsItem for &'t Item {
    ghost item_of = { λ step. step.now };

    fn as_item(&self) -> Option<&Item> {
        Some(*self)
    }
}

/// Whether an item is a field or a directive that is played with the notes.
pub fn is_field(item: &Item) -> bool
    ensures { result ≡ is_field item.now }
{
    matches!(
        item,
        Item::Tempo { .. } | Item::Meter { .. } | Item::Key { .. } | Item::Program { .. }
    )
}

/// Whether an item is played, or a mark of a play.
pub fn is_step(item: &Item) -> bool
    ensures { result ≡ is_step item.now }
{
    match item {
        Item::Tone { .. } | Item::Rest { .. } | Item::Bar(_) | Item::Ending(_) => true,
        Item::Tempo { opening, .. }
        | Item::Meter { opening, .. }
        | Item::Key { opening, .. }
        | Item::Program { opening, .. } => !*opening,
        _ => false,
    }
}

/// Returns the mark of an item in its section.
fn item_mark(item: &Item) -> Mark
    ensures { result ≡ mark_of item.now }
{
    match item {
        Item::Bar(bar) => Mark::Bar {
            closes: bar.closes as usize,
            opens: bar.opens as usize,
            double: bar.double,
        },
        Item::Ending(numbers) => Mark::Ending(*numbers),
        _ => Mark::Play,
    }
}

/// Returns the mark of a step in its section.
pub(crate) fn mark_of<T: AsItem>(step: &T) -> Mark
    ensures { result ≡ mark_of (T.item_of step.now) }
{
    match step.as_item() {
        Some(item) => item_mark(item),
        None => Mark::Play,
    }
}

/// Whether a step is a field that is played with the notes, or is played as one.
pub(crate) fn is_field_step<T: AsItem>(step: &T) -> bool
    ensures { result ≡ is_field (T.item_of step.now) }
{
    match step.as_item() {
        Some(item) => is_field(item),
        None => true,
    }
}

/// Whether a step is played.
pub(crate) fn is_played<T: AsItem>(step: &T) -> bool
    ensures { result ≡ is_play (mark_of (T.item_of step.now)) }
{
    !matches!(step.as_item(), Some(Item::Bar(_) | Item::Ending(_)))
}

/// Whether a step is a bar line that neither repeats nor is double.
pub(crate) fn is_single_bar<T: AsItem>(step: &T) -> bool
    ensures { result ≡ is_single (mark_of (T.item_of step.now)) }
{
    match step.as_item() {
        Some(Item::Bar(bar)) => bar.closes == 0 && bar.opens == 0 && !bar.double,
        _ => false,
    }
}

/// Whether a step is played, or a mark of a play.
pub(crate) fn is_own_step<T: AsItem>(step: &T) -> bool
    ensures { result ≡ is_step (T.item_of step.now) }
{
    match step.as_item() {
        Some(item) => is_step(item),
        None => true,
    }
}

/// Whether a section begins after a step.
pub(crate) fn is_section<T: AsItem>(step: &T) -> bool
    ensures { result ≡ is_section (T.item_of step.now) }
{
    matches!(step.as_item(), Some(Item::Section(_)))
}

/// Returns the current voice after a step.
pub(crate) fn voice_after<'s, T: AsItem>(voice: &'s [u8], step: &'s T) -> &'s [u8]
    ensures { result.now ≡ voice_after voice.now (T.item_of step.now) }
{
    match step.as_item() {
        Some(
            Item::Voice {
                opening: false,
                name,
            },
        ) => name.as_slice(),
        _ => voice,
    }
}

/// Whether a voice is the current one after a step. `is_own` is whether it is the current one before the step.
pub(crate) fn is_own_after<T: AsItem>(voice: &[u8], is_own: bool, step: &T) -> bool
    ensures { result ≡ is_own_after voice.now is_own (T.item_of step.now) }
{
    match step.as_item() {
        Some(
            Item::Voice {
                opening: false,
                name,
            },
        ) => name.as_slice() == voice,
        _ => is_own,
    }
}

/// Returns the time of an item. Most items that are played are notes and chords, so these are tested first.
pub fn length_of(item: &Item) -> Grains
    ensures { result.0 ≡ length_of item.now }
{
    match item {
        Item::Tone { length, .. } => *length,
        _ => length_of_any(item),
    }
}

/// Returns the time of an item of any kind. It is a call of its own, since few items need it.
#[inline(never)]
fn length_of_any(item: &Item) -> Grains
    ensures { result.0 ≡ length_of item.now }
{
    match item {
        Item::Tone { length, .. } | Item::Rest { length, .. } => *length,
        _ => Grains(0),
    }
}

/// Returns the time of a step.
pub fn length_of_step<T: AsItem>(step: &T) -> Grains
    ensures { result.0 ≡ length_of (T.item_of step.now) }
{
    match step.as_item() {
        Some(item) => length_of(item),
        None => Grains(0),
    }
}
