//! The notes of the items that a voice plays.

ghost use Rattle.std.specs.Prelude.{◌≡◌, ◌-◌, ◌≤◌, List, All, Some, IfOk, OnOk};
ghost use Rattle.abc_bars_items.specs.declared.item.Tone.{Tone};
ghost use Rattle.abc_time.specs.declared.grains.Grains.{Grains};
ghost use Rattle.abc_bars_items.specs.Item.{IsItem, IsTone};
ghost use Rattle.abc_time.specs.Grains.{grains_of_the_latest_end};
ghost use Rattle.abc_voices_sections.specs.Items.{items_of};
ghost use Rattle.abc_voices.specs.TiedNotes.{before, notes_from, notes_in};
ghost use Rattle.abc_voices_sections.specs.Play.{duration};
ghost use Rattle.abc_voices_sections.specs.Step.{length_of, tones_of};

use crate::tied_notes::ReverseNotes;
use abc_bars_items::{Item, Tones, TonesView};
use abc_time::Grains;
use std::alloc::AllocError;

/// Puts the tones of a time token before the notes after it.
fn put_tones(notes: &mut ReverseNotes, at: Grains, tones: &Tones) -> Result<(), AllocError>
    requires at { at.0 ≤ grains_of_the_latest_end }
    requires tones { All IsTone tones.now }
    ensures { OnOk result (notes_in notes.new ≡ before at.0 (Some tones.now) (notes_in notes.old)) }
{
    match tones.view() {
        TonesView::One(tone) => notes.put_tone(at, &tone),
        TonesView::List(tones) => notes.put_token(at, tones),
    }
}

/// Puts an item without tones that ends at a moment before the notes after it, and returns the moment at which it begins. It
/// is a call of its own, since most items that are played are notes and chords.
#[inline(never)]
fn put_without_tones(
    notes: &mut ReverseNotes,
    end: Grains,
    item: &Item,
) -> Result<Grains, AllocError>
    requires end { end.0 ≤ grains_of_the_latest_end }
    requires length { length_of item.now ≤ end.0 }
    requires item { (tones : List Tone) (length : Grains) → ¬ (item.now ≡ Item.Tone tones length) }
    ensures begin { IfOk result (λ begin. begin.0 ≡ end.0 - length_of item.now) }
    ensures put { OnOk result (notes_in notes.new
        ≡ before (end.0 - length_of item.now) (tones_of item.now) (notes_in notes.old)) }
{
    match item {
        Item::Rest { length, bar } => {
            let begin = Grains(end.0 - length.0);
            if !*bar {
                notes.put_token(begin, &[])?;
            }
            Ok(begin)
        }
        _ => Ok(end),
    }
}

/// Puts an item that ends at a moment before the notes after it, and returns the moment at which it begins.
fn put_item(notes: &mut ReverseNotes, end: Grains, item: &Item) -> Result<Grains, AllocError>
    requires end { end.0 ≤ grains_of_the_latest_end }
    requires length { length_of item.now ≤ end.0 }
    requires item { IsItem item.now }
    ensures begin { IfOk result (λ begin. begin.0 ≡ end.0 - length_of item.now) }
    ensures put { OnOk result (notes_in notes.new
        ≡ before (end.0 - length_of item.now) (tones_of item.now) (notes_in notes.old)) }
{
    match item {
        Item::Tone { tones, length } => {
            let begin = Grains(end.0 - length.0);
            put_tones(notes, begin, tones)?;
            Ok(begin)
        }
        _ => put_without_tones(notes, end, item),
    }
}

/// Puts the items that are played up to a moment before the notes after them. Most of the time of a tune is spent here:
/// not inlined, the loop keeps more in registers.
#[inline(never)]
pub(crate) fn put_notes(
    notes: &mut ReverseNotes,
    end: Grains,
    steps: &[&Item],
) -> Result<(), AllocError>
    requires end { end.0 ≤ grains_of_the_latest_end }
    requires steps { All IsItem (items_of steps.now) }
    requires duration { duration (items_of steps.now) ≤ end.0 }
    ensures { OnOk result (notes_in notes.new
        ≡ notes_from (end.0 - duration (items_of steps.now)) (items_of steps.now) (notes_in notes.old)) }
{
    // The room for notes of chords makes it rare that a long list is moved.
    notes.reserve(steps.len().saturating_add(steps.len() / 8))?;
    let mut at = end;
    let mut left = steps.len();
    while left > 0 {
        left -= 1;
        at = put_item(notes, at, steps[left])?;
    }
    Ok(())
}
