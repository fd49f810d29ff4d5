//! The tempos, meters, keys and programs that voices set in stages, played one after another.

ghost use Rattle.std.specs.Prelude.{◌≡◌, ◌+◌, ◌≤◌, [], ◌∷◌, ◌++◌, All, IfOk, OnOk};
ghost use Rattle.abc_time.specs.Grains.{grains_of_the_latest_end};
ghost use Rattle.abc_voices.specs.Turns.{IsStage, IsPart, stages_in, set_beside, set_by_all, set_at, set_by_one};
ghost use Rattle.abc_voices.specs.Change.{tempo_of, set_from, after_opening};
ghost use Rattle.abc_voices_sections.specs.Items.{items_of};
ghost use Rattle.abc_voices_sections.specs.Stage.{part_items, stage_items};
ghost use Rattle.abc_voices_sections.specs.Turns.{length_along};

use crate::setting::{Setting, Tempos, put_set};
use abc_bars_items::Item;
use abc_time::Grains;
use abc_voices_sections::{Stage, Turn, VoicePart};
use std::alloc::{AllocError, Global};

/// Appends the tempos of all voices in a stage that is played from a moment on.
fn put_stage_tempos(
    tempos: &mut Vec<(Grains, u32)>,
    at: Grains,
    stage: &Stage<&Item>,
) -> Result<(), AllocError>
    requires stage { IsStage (stage_items stage.now) }
    requires end { at.0 + stage.now.longest.0 ≤ grains_of_the_latest_end }
    ensures { OnOk result (tempos.new.items ≡ tempos.old.items ++ set_beside tempo_of at.0 (stage_items stage.now)) }
{
    for part in stage.parts.as_slice() {
        put_set::<Tempos>(tempos, at, part.steps.as_slice())?;
    }
    Ok(())
}

/// Returns the tempos of all voices in the stages that are played, after the one with which the tune opens.
#[tactic(auto, unfolding(abc_time::specs::Grains::grains_of_a_whole_note, abc_time::specs::Grains::grains_of_the_latest_end))]
pub(crate) fn tempos_along(
    alloc: Global,
    turns: &[Turn<'_, &Item>],
    opening: u32,
) -> Result<Vec<(Grains, u32)>, AllocError>
    requires stages { All (λ turn. IsStage (stage_items turn.stage.now)) turns.now }
    requires in_time { length_along (stages_in turns.now) ≤ grains_of_the_latest_end }
    ensures { IfOk result (λ tempos. tempos.items
        ≡ (record { 0 = 0 }, opening) ∷ set_by_all tempo_of 0 (stages_in turns.now)) }
{
    let mut tempos = Vec::new(alloc);
    tempos.push((Grains(0), opening))?;
    let mut at = Grains(0);
    for turn in turns {
        put_stage_tempos(&mut tempos, at, turn.stage)?;
        at.0 += turn.stage.longest.0;
    }
    Ok(tempos)
}

/// Appends the values of a part that is played from a moment on.
#[tactic(auto, unfolding(abc_time::specs::Grains::grains_of_a_whole_note, abc_time::specs::Grains::grains_of_the_latest_end))]
fn put_part<S: Setting>(
    sets: &mut Vec<(Grains, S::Value)>,
    at: Grains,
    longest: Grains,
    part: &VoicePart<&Item>,
) -> Result<(), AllocError>
    requires part { IsPart longest (part_items part.now) }
    requires end { at.0 + longest.0 ≤ grains_of_the_latest_end }
    ensures { OnOk result (sets.new.items
        ≡ sets.old.items ++ set_from S.value_of at.0 (items_of part.now.steps)) }
{
    put_set::<S>(sets, at, part.steps.as_slice())
}

/// Appends the values of a voice in a stage that is played from a moment on.
fn put_stage<S: Setting>(
    sets: &mut Vec<(Grains, S::Value)>,
    at: Grains,
    stage: &Stage<&Item>,
    voice: usize,
) -> Result<(), AllocError>
    requires stage { IsStage (stage_items stage.now) }
    requires end { at.0 + stage.now.longest.0 ≤ grains_of_the_latest_end }
    ensures { OnOk result (sets.new.items ≡ sets.old.items ++ set_at S.value_of voice at.0 (stage_items stage.now)) }
{
    match stage.part(voice) {
        Some(part) => put_part::<S>(sets, at, stage.longest, part),
        None => Ok(()),
    }
}

/// Appends the values of a voice in the stages that are played.
#[tactic(auto, unfolding(abc_time::specs::Grains::grains_of_a_whole_note, abc_time::specs::Grains::grains_of_the_latest_end))]
fn put_stages<S: Setting>(
    sets: &mut Vec<(Grains, S::Value)>,
    turns: &[Turn<'_, &Item>],
    voice: usize,
) -> Result<(), AllocError>
    requires stages { All (λ turn. IsStage (stage_items turn.stage.now)) turns.now }
    requires in_time { length_along (stages_in turns.now) ≤ grains_of_the_latest_end }
    ensures { OnOk result (sets.new.items
        ≡ sets.old.items ++ set_by_one S.value_of voice 0 (stages_in turns.now)) }
{
    let mut at = Grains(0);
    for turn in turns {
        put_stage::<S>(sets, at, turn.stage, voice)?;
        at.0 += turn.stage.longest.0;
    }
    Ok(())
}

/// Returns the list of the opening value, if there is one.
fn opening_sets<S: Setting>(
    alloc: Global,
    opening: Option<S::Value>,
) -> Result<Vec<(Grains, S::Value)>, AllocError>
    ensures { IfOk result (λ sets. sets.items ≡ after_opening opening []) }
{
    let mut sets = Vec::new(alloc);
    if let Some(value) = opening {
        sets.push((Grains(0), value))?;
    }
    Ok(sets)
}

/// Returns the values of a voice in the stages that are played, after the opening value, if there is one.
#[tactic(auto, using(crate::proofs::Lengths::after_nothing))]
pub(crate) fn one_along<S: Setting>(
    alloc: Global,
    turns: &[Turn<'_, &Item>],
    voice: usize,
    opening: Option<S::Value>,
) -> Result<Vec<(Grains, S::Value)>, AllocError>
    requires stages { All (λ turn. IsStage (stage_items turn.stage.now)) turns.now }
    requires in_time { length_along (stages_in turns.now) ≤ grains_of_the_latest_end }
    ensures { IfOk result (λ sets. sets.items
        ≡ after_opening opening (set_by_one S.value_of voice 0 (stages_in turns.now))) }
{
    let mut sets = opening_sets::<S>(alloc, opening)?;
    put_stages::<S>(&mut sets, turns, voice)?;
    Ok(sets)
}
