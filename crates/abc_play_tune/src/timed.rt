//! Steps that are played at their moments.

ghost use Rattle.std.specs.Prelude.{◌≡◌, ◌+◌, ◌-◌, ◌≤◌, ◌++◌, All, IfOk, OnOk};
ghost use Rattle.abc_time.specs.Grains.{grains_of_the_latest_end};
ghost use Rattle.abc_voices.specs.Turns.{for_voices};
ghost use Rattle.abc_play_tune.specs.Stage.{time_of};
ghost use Rattle.abc_play_tune.specs.Timed.{timed_from, timed_at, timed_along};
ghost use Rattle.abc_play_tune.specs.Turns.{IsPart, IsStage};
ghost use Rattle.abc_voices_sections.specs.Turns.{stages_in, length_along};

use abc_play_sections::PlayStep;
use abc_text::Sequence;
use abc_time::Grains;
use abc_voices_sections::{Stage, Turn, VoicePart, length_of_step};
use std::alloc::{AllocError, Global};

/// A step that is played, and the moment at which it begins.
#[derive(Clone, Copy)]
pub struct TimedStep<'t> {
    pub at: Grains,
    pub step: PlayStep<'t>,
}

/// Appends steps that are played one after another from a moment on.
#[tactic(auto, unfolding(abc_time::specs::Grains::grains_of_a_whole_note, abc_time::specs::Grains::grains_of_the_latest_end))]
fn put_timed<'t>(
    timed: &mut Vec<TimedStep<'t>>,
    start: Grains,
    steps: &[PlayStep<'t>],
) -> Result<(), AllocError>
    requires { start.0 + time_of steps.now ≤ grains_of_the_latest_end }
    ensures { OnOk result (timed.new.items ≡ timed.old.items ++ timed_from start.0 steps.now) }
{
    let mut at = start;
    for step in steps {
        timed.push(TimedStep { at, step: *step })?;
        at.0 += length_of_step(step).0;
    }
    Ok(())
}

/// Appends the steps of a part that is played from a moment on.
#[tactic(auto, unfolding(abc_time::specs::Grains::grains_of_a_whole_note, abc_time::specs::Grains::grains_of_the_latest_end))]
fn put_part<'t>(
    timed: &mut Vec<TimedStep<'t>>,
    at: Grains,
    longest: Grains,
    part: &VoicePart<PlayStep<'t>>,
) -> Result<(), AllocError>
    requires part { IsPart longest part.now }
    requires end { at.0 + longest.0 ≤ grains_of_the_latest_end }
    ensures { OnOk result (timed.new.items ≡ timed.old.items ++ timed_from at.0 part.now.steps) }
{
    put_timed(timed, at, part.steps.as_slice())
}

/// Appends the steps of a voice in a stage that is played from a moment on.
fn put_stage<'t>(
    timed: &mut Vec<TimedStep<'t>>,
    at: Grains,
    stage: &Stage<PlayStep<'t>>,
    voice: usize,
) -> Result<(), AllocError>
    requires stage { IsStage stage.now }
    requires end { at.0 + stage.now.longest.0 ≤ grains_of_the_latest_end }
    ensures { OnOk result (timed.new.items ≡ timed.old.items ++ timed_at voice at.0 stage.now) }
{
    let parts = stage.parts.as_slice();
    match parts.get(voice) {
        Some(part) => put_part(timed, at, stage.longest, part),
        None => Ok(()),
    }
}

/// Returns the steps of a voice in the stages that are played, at their moments.
#[tactic(auto, unfolding(abc_time::specs::Grains::grains_of_a_whole_note, abc_time::specs::Grains::grains_of_the_latest_end))]
fn voice_along<'t>(
    alloc: Global,
    turns: &[Turn<'_, PlayStep<'t>>],
    voice: usize,
) -> Result<Sequence<TimedStep<'t>>, AllocError>
    requires stages { All (λ turn. IsStage turn.stage.now) turns.now }
    requires in_time { length_along (stages_in turns.now) ≤ grains_of_the_latest_end }
    ensures { IfOk result (λ timed. timed ≡ timed_along voice 0 (stages_in turns.now)) }
{
    let mut timed = Vec::new(alloc);
    let mut at = Grains(0);
    for turn in turns {
        put_stage(&mut timed, at, turn.stage, voice)?;
        at.0 += turn.stage.longest.0;
    }
    Ok(Sequence::from(timed))
}

/// Returns the steps of the voices from `first` on, up to `count`.
pub(crate) fn voices_along<'t>(
    alloc: Global,
    turns: &[Turn<'_, PlayStep<'t>>],
    first: usize,
    count: usize,
) -> Result<Sequence<Sequence<TimedStep<'t>>>, AllocError>
    requires stages { All (λ turn. IsStage turn.stage.now) turns.now }
    requires in_time { length_along (stages_in turns.now) ≤ grains_of_the_latest_end }
    requires voices { first ≤ count }
    ensures { IfOk result (λ voices. voices
        ≡ for_voices (λ one. timed_along one 0 (stages_in turns.now)) first (count - first)) }
{
    let mut voices = Vec::new(alloc);
    for voice in first..count {
        let timed = voice_along(alloc, turns, voice)?;
        voices.push(timed)?;
    }
    Ok(Sequence::from(voices))
}
