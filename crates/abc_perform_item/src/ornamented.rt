//! Ornamented notes.

ghost use Rattle.std.specs.Prelude.{◌≡◌, ◌≤◌, ◌++◌, ◌∷◌, [], All, IfOk, IfSome, OnOk, length};
ghost use Rattle.abc_bars_items.specs.Item.{IsTone, IsWithinLongest};
ghost use Rattle.abc_perform_note.specs.Length.{IsLengthOfANote};
ghost use Rattle.abc_perform_note.specs.Part.{IsPartOf};
ghost use Rattle.abc_perform_item.specs.Decorations.{IsOrnament};
ghost use Rattle.abc_perform_item.specs.Performance.{IsPerformed};
ghost use Rattle.abc_perform_item.specs.ToneChange.{IsChange};
ghost use Rattle.abc_perform_item.specs.Ornamented.{mordent_parts, roll_parts, slide_parts, trill_parts, turn_parts};
ghost use Rattle.abc_perform_item.specs.Ornamented.{moved_ornament, ornament_parts, part_item, part_items, parts_of_note};

use crate::decorations::OrnamentMark;
use crate::performance::Performance;
use crate::performed::{Performed, Place, Source};
use crate::tone_change::ToneChange;
use abc_bars_items::{HIGHEST_KEY, Item, Tone, Tones};
use abc_marks::Ornament;
use abc_perform_note::{Part, key_below, mordent, roll, slide, trill, turn};
use abc_text::Sequence;
use abc_time::Grains;
use std::alloc::{AllocError, Global};

/// Returns an ornament with the keys of its neighbours moved as those of its note are.
pub(crate) fn moved_ornament(change: ToneChange, mark: OrnamentMark) -> OrnamentMark
    ensures value { result ≡ moved_ornament change mark }
    ensures range { IsOrnament result }
{
    OrnamentMark {
        ornament: mark.ornament,
        up: change.key(mark.up),
        down: change.key(mark.down),
    }
}

/// Returns the parts of a trill, if MIDI has the key of the upper neighbour.
fn trill_parts(
    alloc: Global,
    key: u8,
    up: Option<u8>,
    length: Grains,
) -> Result<Option<Sequence<Part>>, AllocError>
    requires key { key ≤ HIGHEST_KEY }
    requires up { IfSome up (λ up. up ≤ HIGHEST_KEY) }
    ensures value { IfOk result (λ found. found ≡ trill_parts key up length.0) }
    ensures range { IfOk result (λ found. IfSome found (λ parts. All (IsPartOf length.0) parts)) }
{
    match up {
        Some(up) => trill(alloc, key, up, length),
        None => Ok(None),
    }
}

/// Returns the parts of a mordent, if MIDI has the key of the neighbour.
fn mordent_parts(
    alloc: Global,
    key: u8,
    neighbour: Option<u8>,
    length: Grains,
) -> Result<Option<Sequence<Part>>, AllocError>
    requires key { key ≤ HIGHEST_KEY }
    requires neighbour { IfSome neighbour (λ neighbour. neighbour ≤ HIGHEST_KEY) }
    ensures value { IfOk result (λ found. found ≡ mordent_parts key neighbour length.0) }
    ensures range { IfOk result (λ found. IfSome found (λ parts. All (IsPartOf length.0) parts)) }
{
    match neighbour {
        Some(neighbour) => {
            let parts = mordent(alloc, key, neighbour, length)?;
            Ok(Some(parts))
        }
        None => Ok(None),
    }
}

/// Returns the parts of a turn, if MIDI has the keys of both neighbours.
fn turn_parts(
    alloc: Global,
    first: Option<u8>,
    key: u8,
    other: Option<u8>,
    length: Grains,
) -> Result<Option<Sequence<Part>>, AllocError>
    requires first { IfSome first (λ first. first ≤ HIGHEST_KEY) }
    requires key { key ≤ HIGHEST_KEY }
    requires other { IfSome other (λ other. other ≤ HIGHEST_KEY) }
    ensures value { IfOk result (λ found. found ≡ turn_parts first key other length.0) }
    ensures range { IfOk result (λ found. IfSome found (λ parts. All (IsPartOf length.0) parts)) }
{
    match (first, other) {
        (Some(first), Some(other)) => {
            let parts = turn(alloc, first, key, other, length)?;
            Ok(Some(parts))
        }
        _ => Ok(None),
    }
}

/// Returns the parts of a roll, if MIDI has the keys of both neighbours.
fn roll_parts(
    alloc: Global,
    key: u8,
    up: Option<u8>,
    down: Option<u8>,
    length: Grains,
) -> Result<Option<Sequence<Part>>, AllocError>
    requires key { key ≤ HIGHEST_KEY }
    requires up { IfSome up (λ up. up ≤ HIGHEST_KEY) }
    requires down { IfSome down (λ down. down ≤ HIGHEST_KEY) }
    requires length { IsLengthOfANote length.0 }
    ensures value { IfOk result (λ found. found ≡ roll_parts key up down length.0) }
    ensures range { IfOk result (λ found. IfSome found (λ parts. All (IsPartOf length.0) parts)) }
{
    match (up, down) {
        (Some(up), Some(down)) => {
            let parts = roll(alloc, key, up, down, length)?;
            Ok(Some(parts))
        }
        _ => Ok(None),
    }
}

/// Returns the parts of a slide, if MIDI has the key below.
fn slide_parts(alloc: Global, key: u8, length: Grains) -> Result<Option<Sequence<Part>>, AllocError>
    requires { key ≤ HIGHEST_KEY }
    ensures value { IfOk result (λ found. found ≡ slide_parts key length.0) }
    ensures range { IfOk result (λ found. IfSome found (λ parts. All (IsPartOf length.0) parts)) }
{
    match key_below(key) {
        Some(below) => {
            let parts = slide(alloc, below, key, length)?;
            Ok(Some(parts))
        }
        None => Ok(None),
    }
}

/// Returns the parts of an ornamented note, if MIDI has the keys that the ornament needs and there is time for it.
fn ornament_parts(
    alloc: Global,
    mark: OrnamentMark,
    key: u8,
    length: Grains,
) -> Result<Option<Sequence<Part>>, AllocError>
    requires mark { IsOrnament mark }
    requires key { key ≤ HIGHEST_KEY }
    requires length { IsLengthOfANote length.0 }
    ensures value { IfOk result (λ found. found ≡ ornament_parts mark key length.0) }
    ensures range { IfOk result (λ found. IfSome found (λ parts. All (IsPartOf length.0) parts)) }
{
    match mark.ornament {
        Ornament::Trill => trill_parts(alloc, key, mark.up, length),
        Ornament::LowerMordent => mordent_parts(alloc, key, mark.down, length),
        Ornament::UpperMordent => mordent_parts(alloc, key, mark.up, length),
        Ornament::Turn => turn_parts(alloc, mark.up, key, mark.down, length),
        Ornament::InvertedTurn => turn_parts(alloc, mark.down, key, mark.up, length),
        Ornament::Roll => roll_parts(alloc, key, mark.up, mark.down, length),
        Ornament::Slide => slide_parts(alloc, key, length),
    }
}

/// Returns the parts of a note, if it has an ornament that has an effect.
pub(crate) fn parts_of_note(
    alloc: Global,
    mark: Option<OrnamentMark>,
    change: ToneChange,
    key: Option<u8>,
    length: Grains,
) -> Result<Option<Sequence<Part>>, AllocError>
    requires { IsLengthOfANote length.0 }
    ensures value { IfOk result (λ found. found ≡ parts_of_note mark change key length.0) }
    ensures range { IfOk result (λ found. IfSome found (λ parts. All (IsPartOf length.0) parts)) }
{
    match (mark, change.key(key)) {
        (Some(mark), Some(key)) => {
            ornament_parts(alloc, moved_ornament(change, mark), key, length)
        }
        _ => Ok(None),
    }
}

/// Returns a part of a note as an item.
fn part_item(change: ToneChange, tone: Tone, item: Place, tied: bool, part: Part) -> Performed
    requires change { IsChange change }
    requires tone { IsTone tone }
    requires part { IsLengthOfANote part.length.0 }
    requires key { part.key ≤ HIGHEST_KEY }
    ensures value { result ≡ part_item change tone item tied part }
    ensures range { IsPerformed result }
{
    let sound = Tone {
        length: change.short_length(part.length),
        key: Some(part.key),
        velocity: change.velocity(tone.velocity),
        tied: change.is_tied(tied),
    };
    Performed {
        item: Item::Tone {
            tones: Tones::one(sound),
            length: part.length,
        },
        source: Source::Item(item),
    }
}

/// Appends the parts of a note. The last one has the note's tie.
pub(crate) fn put_parts(
    performance: &mut Performance,
    change: ToneChange,
    tone: Tone,
    item: Place,
    length: Grains,
    parts: &[Part],
) -> Result<(), AllocError>
    requires change { IsChange change }
    requires tone { IsTone tone }
    requires length { IsLengthOfANote length.0 }
    requires parts { All (IsPartOf length.0) parts.now }
    ensures { OnOk result (performance.new ≡ performance.old ++ part_items change tone item parts.now) }
{
    for (index, part) in parts.iter().enumerate() {
        let tied = parts[index + 1..].is_empty() && tone.tied;
        performance.push(part_item(change, tone, item, tied, *part))?;
    }
    Ok(())
}
