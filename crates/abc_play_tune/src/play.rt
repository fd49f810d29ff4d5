//! The play of a tune.

ghost use Rattle.std.specs.Prelude.{◌≡◌, ◌≢◌, ◌<◌, ◌≤◌, ◌-◌, length, map, None, IfOk};
ghost use Rattle.std.specs.List.{list_any};
ghost use Rattle.abc_repeat.specs.Order.{sections_of};
ghost use Rattle.abc_repeat.specs.declared.play.TheConstants.{MOST_PLACES};
ghost use Rattle.abc_time.specs.Grains.{grains_of_the_latest_end};
ghost use Rattle.abc_voices.specs.Layout.{total};
ghost use Rattle.abc_voices.specs.Opening.{order_after, after_all};
ghost use Rattle.abc_voices.specs.Track.{tracks, voice_names};
ghost use Rattle.abc_voices.specs.Turns.{first_place};
ghost use Rattle.abc_voices_sections.specs.Items.{items_of};
ghost use Rattle.abc_voices_sections.specs.Section.{letters, opening_voice};
ghost use Rattle.abc_voices_sections.specs.declared.stage.StageError.TheVariants.{TooMany, TooLate};
ghost use Rattle.abc_play_tune.specs.Play.{counted_place, counted_voices, is_nameless, played_sections, play_of_voice, steps_played};
ghost use Rattle.abc_play_tune.specs.Stage.{stage_of};
ghost use Rattle.abc_voices_sections.specs.Table.{at_places};
ghost use Rattle.abc_voices_sections.specs.Turns.{stages_in};

use crate::steps::steps_of;
use crate::timed::{TimedStep, voices_along};
use abc_bars_items::Item;
use abc_play_sections::PlayStep;
use abc_text::Sequence;
use abc_voices_sections::{
    Stage, StageError, Turn, length_along, sections, stages, turns_in_order,
};
use std::alloc::Global;

/// Whether a V: of the body has no name.
fn has_nameless(tune: &[&Item]) -> bool
    ensures { result ≡ list_any is_nameless (items_of tune.now) }
{
    for item in tune {
        if is_nameless(item) {
            return true;
        }
    }
    false
}

/// Whether an item is a V: of the body without a name.
fn is_nameless(item: &Item) -> bool
    ensures { result ≡ is_nameless item.now }
{
    match item {
        Item::Voice {
            opening: false,
            name,
        } => name.as_slice().is_empty(),
        _ => false,
    }
}

/// Returns the place of the first voice that counts, if the one at place `first` has the first track.
fn counted_place(tune: &[&Item], first: usize) -> usize
    requires { first ≡ first_place (items_of tune.now) }
    ensures { result ≡ counted_place (items_of tune.now) }
{
    if has_nameless(tune) { 0 } else { first }
}

/// Returns the stages of the sections of a tune that are played, by the voices that count.
fn stages_of<'t>(
    alloc: Global,
    tune: &[&'t Item],
    opening: &'t [u8],
    voices: &[&[u8]],
    played: &[usize],
) -> Result<Vec<Option<Stage<PlayStep<'t>>>>, StageError>
    requires opening { opening.now ≡ opening_voice (items_of tune.now) }
    requires voices { map (λ voice. voice.now) voices.now ≡ counted_voices (items_of tune.now) }
    requires played { played.now ≡ sections_of (after_all order_after None (items_of tune.now)) (letters (items_of tune.now)) }
    ensures value { IfOk result (λ table. at_places table.items played.now
        ≡ map (stage_of (counted_voices (items_of tune.now))) (played_sections tune.now)) }
    ensures few { IfOk result (λ _. steps_played tune.now ≤ MOST_PLACES) }
    ensures too_many { result ≡ Err TooMany → MOST_PLACES < steps_played tune.now }
    ensures too_late { result ≡ Err TooLate → grains_of_the_latest_end < total (items_of tune.now) }
{
    let steps = steps_of(alloc, tune)?;
    let found = sections(alloc, &steps, opening)?;
    stages(alloc, &found, voices, played)
}

/// Returns what the voices with a track play in stages, one after another. Of the `count` voices that count, the one at place
/// `first` has the first track.
fn tracks_along<'t>(
    alloc: Global,
    tune: &[&'t Item],
    turns: &[Turn<'_, PlayStep<'t>>],
    first: usize,
    count: usize,
) -> Result<Sequence<Sequence<TimedStep<'t>>>, StageError>
    requires first { first ≡ first_place (items_of tune.now) - counted_place (items_of tune.now) }
    requires count { count ≡ length (counted_voices (items_of tune.now)) }
    requires stages { stages_in turns.now ≡ map (stage_of (counted_voices (items_of tune.now))) (played_sections tune.now) }
    ensures value { IfOk result (λ found. found ≡ map (play_of_voice tune.now) (tracks (items_of tune.now))) }
    ensures too_many { result ≢ Err TooMany }
    ensures too_late { result ≡ Err TooLate → grains_of_the_latest_end < total (items_of tune.now) }
{
    let Some(_total) = length_along(turns) else {
        return Err(StageError::TooLate);
    };
    let found = voices_along(alloc, turns, first, count)?;
    Ok(found)
}

/// Returns what each voice with a track plays, from the beginning of a tune to its end. `opening` is the current voice before the
/// first V: of the body, `voices` are the names of the voices, the one at place `first` has the first track, and the sections at
/// `played` are played. It returns `TooMany` if more than `MOST_PLACES` steps are played, `TooLate` if the tune is longer than it may
/// be, and `OutOfMemory` if an allocation fails.
pub fn play_along<'t>(
    alloc: Global,
    tune: &[&'t Item],
    opening: &'t [u8],
    voices: &[&[u8]],
    first: usize,
    played: &[usize],
) -> Result<Sequence<Sequence<TimedStep<'t>>>, StageError>
    requires opening { opening.now ≡ opening_voice (items_of tune.now) }
    requires voices { map (λ voice. voice.now) voices.now ≡ voice_names (items_of tune.now) }
    requires first { first ≡ first_place (items_of tune.now) }
    requires played { played.now ≡ sections_of (after_all order_after None (items_of tune.now)) (letters (items_of tune.now)) }
    ensures value { IfOk result (λ found. found ≡ map (play_of_voice tune.now) (tracks (items_of tune.now))) }
    ensures few { IfOk result (λ _. steps_played tune.now ≤ MOST_PLACES) }
    ensures too_many { result ≡ Err TooMany → MOST_PLACES < steps_played tune.now }
    ensures too_late { result ≡ Err TooLate → grains_of_the_latest_end < total (items_of tune.now) }
{
    // A voice without a track is not laid out.
    let from = counted_place(tune, first);
    let counted = &voices[from..];
    match stages_of(alloc, tune, opening, counted, played) {
        Ok(table) => {
            let turns = turns_in_order(alloc, &table, played)?;
            tracks_along(alloc, tune, &turns, first - from, counted.len())
        }
        Err(why) => Err(why),
    }
}
