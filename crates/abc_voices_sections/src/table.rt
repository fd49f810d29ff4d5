//! The stages of a tune: what its voices play of each section that is played.

ghost use Rattle.std.specs.Prelude.{◌≡◌, ◌+◌, ◌<◌, ◌≤◌, ◌^◌, ◌≢◌, length, map, None, sum_by, slice_get, option_copied, IfOk};
ghost use Rattle.abc_repeat.specs.declared.play.TheConstants.{MOST_PLACES};
ghost use Rattle.abc_time.specs.Grains.{grains_of_the_latest_end};
ghost use Rattle.abc_voices_sections.specs.PlayedSection.{count_in, section_time};
ghost use Rattle.abc_voices_sections.specs.Stage.{steps_at, stage_in, stage_size};
ghost use Rattle.abc_voices_sections.specs.Table.{stage_at, at_places, sections_at, size_for, length_for, AreStages, IsNew, IsPut};

use crate::section::Section;
use crate::stage::{Stage, StageError};
use crate::step::AsItem;
use abc_repeat::MOST_PLACES;
use std::alloc::{AllocError, Global};

/// Returns the stage at a place of a table, if there is one.
pub(crate) fn stage_at<'s, T>(table: &'s [Option<Stage<T>>], place: usize) -> Option<&'s Stage<T>>
    ensures { option_copied result ≡ stage_at table.entry.now place }
{
    if place < table.len() {
        table[place].as_ref()
    } else {
        None
    }
}

/// Returns the room that is left after a stage.
fn room_after<T: AsItem>(stage: &Stage<T>, room: u64) -> Result<u64, StageError>
    requires { stage_size stage.now < 2 ^ 64 }
    ensures room { IfOk result (λ left. left + stage_size stage.now ≡ room) }
    ensures too_many { result ≡ Err StageError.TooMany → room < stage_size stage.now }
    ensures too_late { result ≢ Err StageError.TooLate }
    ensures memory { result ≢ Err StageError.OutOfMemory }
{
    let size = stage.size();
    if size > room {
        return Err(StageError::TooMany);
    }
    Ok(room - size)
}

/// Returns the section at a place, if there is one.
fn section_at<'p, 's, T>(sections: &'p [Section<'s, T>], place: usize) -> Option<&'p Section<'s, T>>
    ensures { option_copied result ≡ slice_get sections.entry.now place }
{
    sections.get(place)
}

/// Puts the stage of a section into the table at its place, and returns the room that is left after its play.
fn put_new<T: AsItem>(
    alloc: Global,
    table: &mut [Option<Stage<T>>],
    section: &Section<'_, T>,
    voices: &[&[u8]],
    place: usize,
    room: u64,
) -> Result<u64, StageError>
    requires place { place < length table.old }
    requires room { room ≤ MOST_PLACES }
    ensures put { IfOk result (λ _. IsNew T.item_of (map (λ voice. voice.now) voices.now) section.now place table.old table.new) }
    ensures fits { IfOk result (λ left. left
        + sum_by (count_in T.item_of (steps_at section.now)) (map (λ voice. voice.now) voices.now) ≡ room) }
    ensures too_many { result ≡ Err StageError.TooMany
        → room < sum_by (count_in T.item_of (steps_at section.now)) (map (λ voice. voice.now) voices.now) }
    ensures too_late { result ≡ Err StageError.TooLate
        → grains_of_the_latest_end < section_time T.item_of (map (λ voice. voice.now) voices.now) (steps_at section.now) }
{
    let stage = Stage::of(alloc, section, voices, room)?;
    let left = room - stage.size();
    table[place] = Some(stage);
    Ok(left)
}

/// Puts the stage of the section at a place into the table, if none is there, and returns the room that is left after its
/// play. A place beyond the sections plays nothing.
fn put_stage<T: AsItem>(
    alloc: Global,
    table: &mut [Option<Stage<T>>],
    sections: &[Section<'_, T>],
    voices: &[&[u8]],
    place: usize,
    room: u64,
) -> Result<u64, StageError>
    requires long { length table.old ≡ length sections.now }
    requires room { room ≤ MOST_PLACES }
    requires table { AreStages T.item_of (map (λ voice. voice.now) voices.now) sections.now table.old }
    ensures put { IfOk result (λ _. IsPut T.item_of (map (λ voice. voice.now) voices.now) sections.now place table.old table.new) }
    ensures fits { IfOk result (λ left. left + size_for T.item_of (map (λ voice. voice.now) voices.now) sections.now place ≡ room) }
    ensures too_many { result ≡ Err StageError.TooMany
        → room < size_for T.item_of (map (λ voice. voice.now) voices.now) sections.now place }
    ensures too_late { result ≡ Err StageError.TooLate
        → grains_of_the_latest_end < length_for T.item_of (map (λ voice. voice.now) voices.now) sections.now place }
{
    let Some(section) = section_at(sections, place) else {
        return Ok(room);
    };
    if let Some(stage) = stage_at(table, place) {
        return room_after(stage, room);
    }
    put_new(alloc, table, section, voices, place, room)
}

/// Returns a table without stages, one place for each section.
fn empty_table<T: AsItem>(
    alloc: Global,
    sections: &[Section<'_, T>],
) -> Result<Vec<Option<Stage<T>>>, AllocError>
    ensures { IfOk result (λ table. table.items ≡ map (λ section. None) sections.now) }
{
    let mut table = Vec::with_capacity(alloc, sections.len())?;
    for _section in sections {
        table.push(None)?;
    }
    Ok(table)
}

/// Returns the stages of the sections at some places, each at its section's place. It returns `TooMany` if more than `MOST_PLACES`
/// steps are played, `TooLate` if the tune is longer than it may be, and `OutOfMemory` if an allocation fails.
pub fn stages<T: AsItem>(
    alloc: Global,
    sections: &[Section<'_, T>],
    voices: &[&[u8]],
    played: &[usize],
) -> Result<Vec<Option<Stage<T>>>, StageError>
    ensures value { IfOk result (λ table. at_places table.items played.now
        ≡ map (stage_in T.item_of (map (λ voice. voice.now) voices.now)) (sections_at sections.now played.now)) }
    ensures places { IfOk result (λ table.
        sum_by (λ section. sum_by (count_in T.item_of section) (map (λ voice. voice.now) voices.now)) (sections_at sections.now played.now)
        ≤ MOST_PLACES) }
    ensures too_many { result ≡ Err StageError.TooMany
        → MOST_PLACES
        < sum_by (λ section. sum_by (count_in T.item_of section) (map (λ voice. voice.now) voices.now)) (sections_at sections.now played.now) }
    ensures too_late { result ≡ Err StageError.TooLate
        → grains_of_the_latest_end
        < sum_by (section_time T.item_of (map (λ voice. voice.now) voices.now)) (sections_at sections.now played.now) }
{
    let mut table = empty_table(alloc, sections)?;
    let mut room = MOST_PLACES;
    for place in played {
        room = put_stage(alloc, &mut table, sections, voices, *place, room)?;
    }
    Ok(table)
}
