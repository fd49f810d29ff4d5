//! The notes of voices in stages that are played one after another.

ghost use Rattle.std.specs.Prelude.{◌≡◌, ◌+◌, ◌-◌, ◌≤◌, All, IfOk, OnOk};
ghost use Rattle.abc_time.specs.Grains.{grains_of_the_latest_end};
ghost use Rattle.abc_voices.specs.Turns.{IsPart, IsStage, stages_in, before_rest, notes_along, voices_along};
ghost use Rattle.abc_voices.specs.Layout.{all_notes};
ghost use Rattle.abc_voices.specs.TiedNotes.{notes_from, notes_in};
ghost use Rattle.abc_voices_sections.specs.Items.{items_of};
ghost use Rattle.abc_voices_sections.specs.Stage.{part_items, stage_items};
ghost use Rattle.abc_voices_sections.specs.Turns.{length_along};

use crate::notes::put_notes;
use crate::tied_notes::ReverseNotes;
use abc_bars_items::Item;
use abc_text::Sequence;
use abc_time::Grains;
use abc_voices_score::Sounding;
use abc_voices_sections::{Stage, Turn, VoicePart};
use std::alloc::{AllocError, Global};

/// Puts a part that is played from a moment on before the notes after it.
#[tactic(auto, unfolding(abc_time::specs::Grains::grains_of_a_whole_note, abc_time::specs::Grains::grains_of_the_latest_end))]
fn put_part(
    notes: &mut ReverseNotes,
    at: Grains,
    longest: Grains,
    part: &VoicePart<&Item>,
) -> Result<(), AllocError>
    requires part { IsPart longest (part_items part.now) }
    requires end { at.0 + longest.0 ≤ grains_of_the_latest_end }
    ensures { OnOk result (notes_in notes.new
        ≡ notes_from at.0 (items_of part.now.steps) (notes_in notes.old)) }
{
    let end = Grains(at.0 + part.length.0);
    put_notes(notes, end, part.steps.as_slice())
}

/// Puts the part of a voice in a stage before the notes after it.
fn put_stage(
    notes: &mut ReverseNotes,
    at: Grains,
    stage: &Stage<&Item>,
    voice: usize,
) -> Result<(), AllocError>
    requires stage { IsStage (stage_items stage.now) }
    requires end { at.0 + stage.now.longest.0 ≤ grains_of_the_latest_end }
    ensures { OnOk result (notes_in notes.new ≡ before_rest voice at.0 (stage_items stage.now) (notes_in notes.old)) }
{
    match stage.part(voice) {
        Some(part) => put_part(notes, at, stage.longest, part),
        None => Ok(()),
    }
}

/// Returns the notes of a voice in stages that are played from the beginning of a tune to a moment.
fn voice_notes(
    alloc: Global,
    turns: &[Turn<'_, &Item>],
    end: Grains,
    voice: usize,
) -> Result<Sequence<Sounding>, AllocError>
    requires stages { All (λ turn. IsStage (stage_items turn.stage.now)) turns.now }
    requires end { end.0 ≡ length_along (stages_in turns.now) }
    requires in_time { end.0 ≤ grains_of_the_latest_end }
    ensures { IfOk result (λ notes. notes ≡ all_notes (notes_along voice 0 (stages_in turns.now))) }
{
    let mut notes = ReverseNotes::new(alloc);
    let mut at = end;
    let mut left = turns.len();
    while left > 0 {
        left -= 1;
        let stage = turns[left].stage;
        at.0 -= stage.longest.0;
        put_stage(&mut notes, at, stage, voice)?;
    }
    Ok(Sequence::from(notes.into_notes()))
}

/// Returns the notes of the voices from `first` on, up to `count`.
pub(crate) fn voices_notes(
    alloc: Global,
    turns: &[Turn<'_, &Item>],
    end: Grains,
    first: usize,
    count: usize,
) -> Result<Sequence<Sequence<Sounding>>, AllocError>
    requires stages { All (λ turn. IsStage (stage_items turn.stage.now)) turns.now }
    requires end { end.0 ≡ length_along (stages_in turns.now) }
    requires in_time { end.0 ≤ grains_of_the_latest_end }
    requires voices { first ≤ count }
    ensures { IfOk result (λ voices. voices ≡ voices_along (stages_in turns.now) first (count - first)) }
{
    let mut voices = Vec::new(alloc);
    for voice in first..count {
        let notes = voice_notes(alloc, turns, end, voice)?;
        voices.push(notes)?;
    }
    Ok(Sequence::from(voices))
}
