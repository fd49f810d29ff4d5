//! Chords.

ghost use Rattle.std.specs.Prelude.{◌≡◌, IfOk, OnOk};
ghost use Rattle.abc_bars_notes.specs.Chords.{part_context, chord_builder_of, is_tie, tie_follows, with_chord_note, with_kind};
ghost use Rattle.abc_bars_notes.specs.Chords.{with_part, AreCounted};

use crate::broken::BrokenFactors;
use crate::sound::{ChordBuilder, NoteContext, add_note};
use abc_bars_items::{MOST_CHORD_NOTES, column_inside};
use abc_bars_voice::VoiceState;
use abc_fields::FaultCode;
use abc_scan::{ChordPart, ChordPartKind, Note, WrittenLength};
use std::alloc::{AllocError, Global};

/// The context of a chord's notes (ABC 2.1 section 4.17).
#[derive(Clone, Copy)]
pub struct ChordContext {
    /// The length after the chord.
    pub(crate) length: WrittenLength,
    /// Whether a tie is after the chord.
    pub(crate) tied: bool,
    /// The place of the chord in its line, counted from 0.
    pub(crate) from: usize,
}

impl ChordContext {
    /// The context of a note at a place of the chord, with a tie after it or not.
    fn note_context(self, from: usize, tied: bool) -> NoteContext
        ensures { result ≡ part_context self from tied }
    {
        NoteContext {
            outer: Some(self.length),
            column: column_inside(self.from, from),
            tied: self.tied || tied,
        }
    }
}

/// Whether a part of a chord is a tie.
fn is_tie(kind: ChordPartKind) -> bool
    ensures { result ≡ is_tie kind }
{
    matches!(kind, ChordPartKind::Tie)
}

/// Whether a tie comes first.
fn tie_follows(parts: &[ChordPart]) -> bool
    ensures { result ≡ tie_follows parts.now }
{
    match parts {
        [part, ..] => is_tie(part.kind),
        [] => false,
    }
}

/// Adds a note of a chord, if it is not one too many.
fn add_chord_note(
    state: &VoiceState,
    broken: &BrokenFactors,
    context: NoteContext,
    note: Note,
    builder: &mut ChordBuilder,
) -> Result<(), AllocError>
    requires { AreCounted builder.old.tones }
    ensures value { OnOk result (builder.new ≡ with_chord_note state.now broken.now context note builder.old) }
    ensures range { OnOk result (AreCounted builder.new.tones) }
{
    if builder.tones.as_slice().len() < MOST_CHORD_NOTES {
        add_note(state, broken, context, note, builder)?;
        return Ok(());
    }
    if !builder.big {
        builder.big = true;
        builder.faults.push((context.column, FaultCode::BigChord))?;
    }
    Ok(())
}

/// Adds a part of this kind.
fn add_kind(
    state: &VoiceState,
    broken: &BrokenFactors,
    context: NoteContext,
    kind: ChordPartKind,
    builder: &mut ChordBuilder,
) -> Result<(), AllocError>
    requires { AreCounted builder.old.tones }
    ensures value { OnOk result (builder.new ≡ with_kind state.now broken.now context kind builder.old) }
    ensures range { OnOk result (AreCounted builder.new.tones) }
{
    match kind {
        ChordPartKind::Note(note) => {
            add_chord_note(state, broken, context, note, builder)?;
        }
        ChordPartKind::Tie => {
            if !builder.after_note {
                builder.faults.push((context.column, FaultCode::LooseTie))?;
            }
        }
        ChordPartKind::NoEffect => {}
        ChordPartKind::BadByte => builder.faults.push((context.column, FaultCode::BadByte))?,
    }
    Ok(())
}

/// Adds a part, with a tie after it or not.
fn add_part(
    state: &VoiceState,
    broken: &BrokenFactors,
    chord_context: ChordContext,
    part: &ChordPart,
    tied: bool,
    builder: &mut ChordBuilder,
) -> Result<(), AllocError>
    requires { AreCounted builder.old.tones }
    ensures value { OnOk result (builder.new ≡ with_part state.now broken.now chord_context part.now tied builder.old) }
    ensures range { OnOk result (AreCounted builder.new.tones) }
{
    let context = chord_context.note_context(part.from as usize, tied);
    add_kind(state, broken, context, part.kind, builder)?;
    builder.after_note = matches!(part.kind, ChordPartKind::Note(_));
    Ok(())
}

/// Builds a chord from its parts.
pub(crate) fn chord_builder_of(
    alloc: Global,
    state: &VoiceState,
    broken: &BrokenFactors,
    chord_context: ChordContext,
    parts: &[ChordPart],
) -> Result<ChordBuilder, AllocError>
    ensures value { IfOk result (λ builder. builder ≡ chord_builder_of state.now broken.now chord_context parts.now) }
    ensures range { IfOk result (λ builder. AreCounted builder.tones) }
{
    let mut builder = ChordBuilder::new(alloc, state)?;
    for (at, part) in parts.iter().enumerate() {
        let tied = tie_follows(&parts[at + 1..]);
        add_part(state, broken, chord_context, part, tied, &mut builder)?;
    }
    Ok(builder)
}
