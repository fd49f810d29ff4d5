//! The programs of voices.

ghost use Rattle.std.specs.Prelude.{◌≡◌, true, ◌-◌, ◌≤◌, All, None, IfOk};
ghost use Rattle.abc_time.specs.Grains.{grains_of_the_latest_end};
ghost use Rattle.abc_voices_sections.specs.Items.{items_of};
ghost use Rattle.abc_voices.specs.Fields.{sets_program, keeps_programs};
ghost use Rattle.abc_voices.specs.Opening.{program_after, after_all};
ghost use Rattle.abc_voices.specs.Turns.{IsStage, PlaysNone, stages_in, programs_by, programs_along};
ghost use Rattle.abc_voices_sections.specs.Stage.{stage_items};
ghost use Rattle.abc_voices_sections.specs.Turns.{length_along};

use crate::fields::keeps_programs;
use crate::opening::opening_program;
use crate::score_changes::programs_in_force;
use crate::setting::Programs;
use crate::stage_settings::one_along;
use abc_bars_items::Item;
use abc_text::Sequence;
use abc_voices_score::ProgramChange;
use abc_voices_sections::Turn;
use std::alloc::{AllocError, Global};

/// Returns the programs of a voice in the stages that are played, after the one with which the tune opens, if any.
fn voice_programs(
    alloc: Global,
    turns: &[Turn<'_, &Item>],
    voice: usize,
    opening: Option<u8>,
) -> Result<Sequence<ProgramChange>, AllocError>
    requires stages { All (λ turn. IsStage (stage_items turn.stage.now)) turns.now }
    requires in_time { length_along (stages_in turns.now) ≤ grains_of_the_latest_end }
    ensures { IfOk result (λ programs. programs ≡ programs_by opening (stages_in turns.now) voice) }
{
    let sets = one_along::<Programs>(alloc, turns, voice, opening)?;
    let changes = programs_in_force(alloc, &sets)?;
    Ok(Sequence::from(changes))
}

/// Returns the programs of the voices from `first` on, up to `count`.
fn each_programs(
    alloc: Global,
    turns: &[Turn<'_, &Item>],
    opening: Option<u8>,
    first: usize,
    count: usize,
) -> Result<Sequence<Sequence<ProgramChange>>, AllocError>
    requires stages { All (λ turn. IsStage (stage_items turn.stage.now)) turns.now }
    requires in_time { length_along (stages_in turns.now) ≤ grains_of_the_latest_end }
    requires voices { first ≤ count }
    ensures { IfOk result (λ voices. voices ≡ programs_along opening (stages_in turns.now) first (count - first)) }
{
    let mut voices = Vec::new(alloc);
    for voice in first..count {
        let programs = voice_programs(alloc, turns, voice, opening)?;
        voices.push(programs)?;
    }
    Ok(Sequence::from(voices))
}

/// Returns the programs of the voices from `first` on, up to `count`, from the items of their tune's fields.
pub(crate) fn voices_programs(
    alloc: Global,
    fields: &[&Item],
    turns: &[Turn<'_, &Item>],
    first: usize,
    count: usize,
) -> Result<Sequence<Sequence<ProgramChange>>, AllocError>
    requires stages { All (λ turn. IsStage (stage_items turn.stage.now)) turns.now }
    requires in_time { length_along (stages_in turns.now) ≤ grains_of_the_latest_end }
    requires programs { keeps_programs (items_of fields.now) ≡ true → All (PlaysNone sets_program) (stages_in turns.now) }
    requires voices { first ≤ count }
    ensures { IfOk result (λ voices. voices
        ≡ programs_along (after_all program_after None (items_of fields.now)) (stages_in turns.now) first (count - first)) }
{
    let opening = opening_program(fields);
    // Most tunes keep the programs with which they open: then no stage is searched.
    if keeps_programs(fields) {
        return each_programs(alloc, &[], opening, first, count);
    }
    each_programs(alloc, turns, opening, first, count)
}
