//! The steps that a voice plays of a section.

ghost use Rattle.std.specs.Prelude.{◌≡◌, ◌<◌, ◌≤◌, ◌-◌, ◌^◌, min, length, true, All, IfOk, MatchOption};
ghost use Rattle.std.specs.List.{list_all, flat_map};
ghost use Rattle.abc_repeat.specs.declared.play.TheConstants.{MOST_PLACES};
ghost use Rattle.abc_repeat.specs.declared.fault.RepeatFault.TheVariants.{TooLong};
ghost use Rattle.abc_repeat.specs.Mark.{is_play};
ghost use Rattle.abc_repeat.specs.Runs.{items_at, items_played};
ghost use Rattle.abc_time.specs.Grains.{grains_of_the_latest_end};
ghost use Rattle.abc_voices_sections.specs.EndingFields.{ordered};
ghost use Rattle.abc_voices_sections.specs.PlayedSection.{steps_in};
ghost use Rattle.abc_voices_sections.specs.Stage.{steps_at};
ghost use Rattle.abc_voices_sections.specs.Play.{places, played, time_of};
ghost use Rattle.abc_voices_sections.specs.Step.{mark_of};
ghost use Rattle.abc_voices_sections.specs.ItemRuns.{runs_of, IsRun};

use crate::ending_fields::{has_waiting_item, with_fields_in_endings};
use crate::item_runs::{ItemRun, item_runs, marks_of};
use crate::section::{Section, part};
use crate::step::{AsItem, is_played, length_of_step};
use abc_repeat::{MOST_PLACES, RepeatFault, expand_within};
use abc_time::{Grains, LATEST_END};
use std::alloc::{AllocError, Global};

/// Returns the number of steps in the runs at some places, at most 2^64 - 1.
fn size_at<T: AsItem>(item_runs: &[ItemRun<'_, T>], places: &[usize]) -> u64
    requires { All (λ place. place < length item_runs.now) places.now }
    ensures { result ≡ min (length (flat_map (items_at (runs_of item_runs.now)) places.now)) (2 ^ 64 - 1) }
{
    let mut size: u64 = 0;
    for place in places {
        size = size.saturating_add(item_runs[*place].items.len() as u64);
    }
    size
}

/// Returns the steps of the runs at some places, with room for `size` steps.
fn items_at_places<T: AsItem>(
    alloc: Global,
    item_runs: &[ItemRun<'_, T>],
    places: &[usize],
    size: usize,
) -> Result<Vec<T>, AllocError>
    requires { All (λ place. place < length item_runs.now) places.now }
    ensures { IfOk result (λ items. items.items ≡ flat_map (items_at (runs_of item_runs.now)) places.now) }
{
    let mut items = Vec::with_capacity(alloc, size)?;
    for place in places {
        items.extend_from_slice(item_runs[*place].items)?;
    }
    Ok(items)
}

/// Returns the steps that are played of the runs of a part, which is in the order of its endings.
fn expand_item_runs<T: AsItem>(
    alloc: Global,
    item_runs: &[ItemRun<'_, T>],
    room: u64,
) -> Result<Vec<T>, RepeatFault>
    requires { All (IsRun T.item_of) (runs_of item_runs.now) }
    ensures value { IfOk result (λ items. items.items ≡ items_played (runs_of item_runs.now)) }
    ensures within { IfOk result (λ items. length items.items ≤ min room MOST_PLACES) }
    ensures too_long { result ≡ Err TooLong → min room MOST_PLACES < length (items_played (runs_of item_runs.now)) }
{
    let marks = marks_of(alloc, item_runs)?;
    let places = expand_within(alloc, &marks, room)?;
    let size = size_at(item_runs, &places);
    if size > room.min(MOST_PLACES) {
        return Err(RepeatFault::TooLong);
    }
    let items = items_at_places(alloc, item_runs, &places, size as usize)?;
    Ok(items)
}

/// Whether all steps are played, without marks among them.
fn are_all_played<T: AsItem>(part: &[T]) -> bool
    ensures { result ≡ list_all (λ step. is_play (mark_of (T.item_of step))) part.now }
{
    for step in part {
        if !is_played(step) {
            return false;
        }
    }
    true
}

/// Returns the steps that are played of a part without marks: all, in their order.
fn play_in_order<T: AsItem>(part: Vec<T>, room: u64) -> Result<Vec<T>, RepeatFault>
    requires { list_all (λ step. is_play (mark_of (T.item_of step))) part.items ≡ true }
    ensures value { IfOk result (λ steps. steps.items ≡ played T.item_of part.items) }
    ensures size { IfOk result (λ steps. length steps.items
        ≡ length (places T.item_of (ordered T.item_of part.items))) }
    ensures within { IfOk result (λ steps. length steps.items ≤ min room MOST_PLACES) }
    ensures too_long { result ≡ Err TooLong
        → min room MOST_PLACES < length (places T.item_of (ordered T.item_of part.items)) }
{
    if part.len() as u64 > room.min(MOST_PLACES) {
        return Err(RepeatFault::TooLong);
    }
    Ok(part)
}

/// Returns the steps that are played of a voice in a section, in order of play, if there are at most `room`. It allocates
/// memory for more places than there are steps only if there is room.
pub(crate) fn played_items<T: AsItem>(
    alloc: Global,
    part: Vec<T>,
    room: u64,
) -> Result<Vec<T>, RepeatFault>
    ensures value { IfOk result (λ steps. steps.items ≡ played T.item_of part.items) }
    ensures size { IfOk result (λ steps. length steps.items
        ≡ length (places T.item_of (ordered T.item_of part.items))) }
    ensures within { IfOk result (λ steps. length steps.items ≤ min room MOST_PLACES) }
    ensures too_long { result ≡ Err TooLong
        → min room MOST_PLACES < length (places T.item_of (ordered T.item_of part.items)) }
{
    // Much music has no marks: then nothing has to be ordered or counted.
    if are_all_played(&part) {
        return play_in_order(part, room);
    }
    let found = item_runs(alloc, &part)?;
    // In most music nothing waits for an ending's sign: then the steps stay in their list.
    if !has_waiting_item(&found) {
        return expand_item_runs(alloc, &found, room);
    }
    let steps = with_fields_in_endings(alloc, &part)?;
    let found = item_runs(alloc, &steps)?;
    expand_item_runs(alloc, &found, room)
}

/// Returns the steps that a voice plays of a section, in order of play, or `TooLong` if there are more than `room` or
/// `MOST_PLACES`.
pub fn played_steps<T: AsItem>(
    alloc: Global,
    section: &Section<'_, T>,
    voice: &[u8],
    room: u64,
) -> Result<Vec<T>, RepeatFault>
    ensures value { IfOk result (λ steps. steps.items ≡ steps_in T.item_of (steps_at section.now) voice.now) }
    ensures within { IfOk result (λ steps. length steps.items ≤ min room MOST_PLACES) }
    ensures too_long { result ≡ Err TooLong
        → min room MOST_PLACES < length (steps_in T.item_of (steps_at section.now) voice.now) }
{
    let own = part(alloc, voice, section.voice, section.items)?;
    played_items(alloc, own, room)
}

/// Returns the time of steps one after another, unless that is later than a tune may end.
#[tactic(auto, unfolding(abc_time::specs::Grains::grains_of_a_whole_note, abc_time::specs::Grains::grains_of_the_latest_end))]
pub fn duration<T: AsItem>(steps: &[T]) -> Option<Grains>
    ensures { MatchOption result
        (grains_of_the_latest_end < time_of T.item_of steps.now)
        (λ grains. (grains.0 ≡ time_of T.item_of steps.now) × (grains.0 ≤ grains_of_the_latest_end)) }
{
    let mut sum: u64 = 0;
    for step in steps {
        sum = sum.saturating_add(length_of_step(step).0);
    }
    if sum <= LATEST_END.0 {
        Some(Grains(sum))
    } else {
        None
    }
}
