//! The items of a tune, and what its voices play.

ghost use Rattle.std.specs.Prelude.{◌≡◌, ◌++◌, ◌≤◌, All, false, map, IfErr, IfOk, OnOk};
ghost use Rattle.abc_bars_items.specs.Item.{IsItem};
ghost use Rattle.abc_repeat.specs.declared.play.TheConstants.{MOST_PLACES};
ghost use Rattle.abc_voices.specs.Layout.{is_too_long, items_in};
ghost use Rattle.abc_voices.specs.Track.{tracks};
ghost use Rattle.abc_voices.specs.Turns.{first_place};
ghost use Rattle.abc_voices_sections.specs.Items.{items_of};
ghost use Rattle.abc_voices_sections.specs.Section.{opening_voice};
ghost use Rattle.abc_play_tune.specs.Play.{play_of_voice, steps_played};
ghost use Rattle.abc_play.specs.Refusal.{RefusesTune};

use crate::order::order_of_sections;
use crate::play_error::PlayError;
use abc_bars_items::{Item, Items};
use abc_play_tune::{TimedStep, play_along};
use abc_text::Sequence;
use abc_voices::{has_unnamed_track, voice_names};
use abc_voices_sections::{StageError, opening_voice};
use std::alloc::{AllocError, Global};

/// Appends items to those of a tune.
fn put_items<'a>(tune: &mut Vec<&'a Item>, items: &'a [Item]) -> Result<(), AllocError>
    ensures { OnOk result (items_of tune.new.items ≡ items_of tune.old.items ++ items.entry.now) }
{
    for item in items {
        tune.push(item)?;
    }
    Ok(())
}

/// Returns the items of a tune, from what its cells give.
pub(crate) fn tune_of<'a>(alloc: Global, given: &[&'a Items]) -> Result<Vec<&'a Item>, AllocError>
    ensures value { IfOk result (λ tune. items_of tune.items ≡ items_in (map (λ one. one.now) given.now)) }
    ensures range { IfOk result (λ tune. All IsItem (items_of tune.items)) }
{
    let mut tune = Vec::new(alloc);
    for one in given {
        put_items(&mut tune, one.items())?;
    }
    Ok(tune)
}

/// Returns the place of the first voice that has a track.
fn first_track(tune: &[&Item], opening: &[u8]) -> usize
    requires { opening.now ≡ opening_voice (items_of tune.now) }
    ensures { result ≡ first_place (items_of tune.now) }
{
    if has_unnamed_track(tune, opening) {
        0
    } else {
        1
    }
}

/// Returns what each voice with a track plays.
pub(crate) fn tracks_of<'t>(
    alloc: Global,
    tune: &[&'t Item],
) -> Result<Sequence<Sequence<TimedStep<'t>>>, PlayError>
    requires items { All IsItem (items_of tune.now) }
    requires short { is_too_long (items_of tune.now) ≡ false }
    ensures value { IfOk result (λ found. found ≡ map (play_of_voice tune.now) (tracks (items_of tune.now))) }
    ensures few { IfOk result (λ _. steps_played tune.now ≤ MOST_PLACES) }
    ensures refused { IfErr result (RefusesTune (steps_played tune.now)) }
{
    let opening = opening_voice(tune);
    let first = first_track(tune, opening);
    let voices = voice_names(alloc, tune)?;
    let Ok(played) = order_of_sections(alloc, tune) else {
        return Err(PlayError::OutOfMemory);
    };
    match play_along(alloc, tune, opening, voices.as_slice(), first, &played) {
        Ok(found) => Ok(found),
        Err(StageError::TooMany) => Err(PlayError::TooLong),
        Err(StageError::TooLate) => Err(PlayError::TooLong),
        Err(StageError::OutOfMemory) => Err(PlayError::OutOfMemory),
    }
}
