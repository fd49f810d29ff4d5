//! A note, chord or rest with all that the marks before it say.

ghost use Rattle.std.specs.Prelude.{◌≡◌, ◌+◌, ◌^◌, ◌<◌, ◌≤◌, ◌++◌, All, OnOk, length};
ghost use Rattle.abc_bars_items.specs.Item.{AreTones, IsItem, IsTone, IsWithinLongest};
ghost use Rattle.abc_marks.specs.Mark.{IsMark};
ghost use Rattle.abc_perform_item.specs.ItemParts.{chord_items, note_items, performed_items, rest_items, sound_items, tone_items};
ghost use Rattle.abc_perform_item.specs.ItemParts.{HasIndexes};
ghost use Rattle.abc_perform_item.specs.ToneChange.{IsChange, IsChangeable};

use crate::decorations::{added_by, divisor_of, has_spread, ornament_of};
use crate::fermata::fermata_factor;
use crate::grace_items::{grace_time, put_graces};
use crate::graces::graces_of;
use crate::ornamented::{parts_of_note, put_parts};
use crate::performance::Performance;
use crate::performed::{Performed, Place, Source};
use crate::setting::ItemSetting;
use crate::spread_chord::put_spread;
use crate::tone_change::ToneChange;
use abc_bars_items::{Item, Tone, Tones, TonesView};
use abc_marks::Mark;
use abc_time::Grains;
use std::alloc::{AllocError, Global};

/// Appends a chord, spread if a mark says so.
fn put_chord(
    alloc: Global,
    performance: &mut Performance,
    item: Place,
    marks: &[Mark],
    change: ToneChange,
    tones: &[Tone],
    left: Grains,
) -> Result<(), AllocError>
    requires change { IsChange change }
    requires tones { AreTones tones.now }
    requires changeable { All (IsChangeable change) tones.now }
    requires left { IsWithinLongest left }
    ensures { OnOk result (performance.new ≡ performance.old ++ chord_items item marks.now change tones.now left) }
{
    let changed = change.tones(alloc, tones)?;
    if has_spread(marks) && tones.len() > 1 {
        return put_spread(alloc, performance, item, changed.as_slice(), left);
    }
    let tones = Tones::of(alloc, changed)?;
    performance.push(Performed {
        item: Item::Tone {
            tones,
            length: left,
        },
        source: Source::Item(item),
    })
}

/// Appends a note, in parts if it has an ornament that has an effect.
fn put_note(
    alloc: Global,
    performance: &mut Performance,
    item: Place,
    marks: &[Mark],
    change: ToneChange,
    tone: Tone,
    left: Grains,
) -> Result<(), AllocError>
    requires marks { All IsMark marks.now }
    requires change { IsChange change }
    requires tone { IsTone tone }
    requires changeable { IsChangeable change tone }
    requires left { IsWithinLongest left }
    ensures { OnOk result (performance.new ≡ performance.old ++ note_items item marks.now change tone left) }
{
    match parts_of_note(alloc, ornament_of(marks), change, tone.key, left)? {
        Some(parts) => put_parts(performance, change, tone, item, left, parts.as_slice()),
        None => put_chord(alloc, performance, item, marks, change, &[tone], left),
    }
}

/// Appends a note or a chord after its grace notes.
fn put_sound(
    alloc: Global,
    performance: &mut Performance,
    item: Place,
    marks: &[Mark],
    change: ToneChange,
    tones: &[Tone],
    left: Grains,
) -> Result<(), AllocError>
    requires marks { All IsMark marks.now }
    requires change { IsChange change }
    requires tones { AreTones tones.now }
    requires changeable { All (IsChangeable change) tones.now }
    requires left { IsWithinLongest left }
    ensures { OnOk result (performance.new ≡ performance.old ++ sound_items item marks.now change tones.now left) }
{
    match tones {
        [tone] => put_note(alloc, performance, item, marks, change, *tone, left),
        _ => put_chord(alloc, performance, item, marks, change, tones, left),
    }
}

/// Appends a note or a chord with its grace notes.
#[tactic(auto, unfolding(abc_time::specs::Grains::grains_of_a_whole_note, abc_time::specs::Grains::grains_of_the_longest_length))]
fn put_tones(
    alloc: Global,
    performance: &mut Performance,
    setting: ItemSetting,
    marks: &[Mark],
    tones: &[Tone],
    length: Grains,
) -> Result<(), AllocError>
    requires marks { All IsMark marks.now }
    requires indexes { HasIndexes setting marks.now }
    requires tones { AreTones tones.now }
    requires length { IsWithinLongest length }
    ensures { OnOk result (performance.new ≡ performance.old ++ tone_items setting marks.now tones.now length) }
{
    let factor = fermata_factor(setting.holds, marks, length, tones);
    let held = Grains(u64::from(factor) * length.0);
    let graces = graces_of(alloc, setting.item.cell, setting.first_mark, marks)?;
    let time = grace_time(alloc, graces.as_slice(), held)?;
    put_graces(
        performance,
        setting.transpose,
        time.share,
        graces.as_slice(),
    )?;
    let change = ToneChange {
        transpose: setting.transpose,
        factor,
        taken: time.taken,
        added: added_by(marks),
        divisor: divisor_of(marks),
    };
    let left = Grains(held.0 - time.taken.0);
    put_sound(alloc, performance, setting.item, marks, change, tones, left)
}

/// Appends a rest with the grace notes before it.
#[tactic(auto, unfolding(abc_time::specs::Grains::grains_of_a_whole_note, abc_time::specs::Grains::grains_of_the_longest_length))]
fn put_rest(
    alloc: Global,
    performance: &mut Performance,
    setting: ItemSetting,
    marks: &[Mark],
    length: Grains,
) -> Result<(), AllocError>
    requires marks { All IsMark marks.now }
    requires indexes { HasIndexes setting marks.now }
    requires length { IsWithinLongest length }
    ensures { OnOk result (performance.new ≡ performance.old ++ rest_items setting marks.now length) }
{
    let factor = fermata_factor(setting.holds, marks, length, &[]);
    let held = Grains(u64::from(factor) * length.0);
    let graces = graces_of(alloc, setting.item.cell, setting.first_mark, marks)?;
    let time = grace_time(alloc, graces.as_slice(), held)?;
    put_graces(
        performance,
        setting.transpose,
        time.share,
        graces.as_slice(),
    )?;
    performance.push(Performed {
        item: Item::Rest {
            length: Grains(held.0 - time.taken.0),
            bar: false,
        },
        source: Source::Item(setting.item),
    })
}

/// Appends an item as it is performed, by the marks since the note, chord or rest before it (ABC 2.1 sections 4.12 and 4.14).
/// It returns an error if an allocation fails.
pub fn perform_item(
    alloc: Global,
    performance: &mut Performance,
    setting: ItemSetting,
    marks: &[Mark],
    item: &Item,
) -> Result<(), AllocError>
    requires marks { All IsMark marks.now }
    requires indexes { HasIndexes setting marks.now }
    requires item { IsItem item.now }
    ensures { OnOk result (performance.new ≡ performance.old ++ performed_items setting marks.now item.now) }
{
    match item {
        Item::Tone { tones, length } => match tones.view() {
            TonesView::One(tone) => put_tones(alloc, performance, setting, marks, &[tone], *length),
            TonesView::List(tones) => put_tones(alloc, performance, setting, marks, tones, *length),
        },
        Item::Rest { length, bar: false } => put_rest(alloc, performance, setting, marks, *length),
        _ => performance.push(Performed {
            item: item.clone()?,
            source: Source::Item(setting.item),
        }),
    }
}
