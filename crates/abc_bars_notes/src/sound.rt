//! Notes as they sound.

ghost use Rattle.std.specs.Prelude.{◌≡◌, if◌then◌else◌, [], ◌∷◌, ◌++◌, All, IfOk, OnOk, unwrap_or};
ghost use Rattle.abc_bars_items.specs.Item.{IsTone, IsWithinLongest};
ghost use Rattle.abc_bars_voice.specs.Alteration.{with_own};
ghost use Rattle.abc_bars_notes.specs.Sound.{fault_if, length_in, no_notes, tied_note_in, tone_in, with_note};

use crate::broken::BrokenFactors;
use crate::lengths::length_or_unit;
use crate::pitch::key_of;
use abc_bars_items::{LocalFault, Tone, velocity_of};
use abc_bars_voice::{Accidentals, TiedNote, VoiceState, alteration_of, write_own};
use abc_fields::FaultCode;
use abc_scan::{Note, WrittenLength};
use abc_text::{Sequence, ShortSequence};
use abc_time::Grains;
use std::alloc::{AllocError, Global};

/// The context of a note.
#[derive(Clone, Copy)]
pub struct NoteContext {
    /// The length after its chord, if it is a note of one (ABC 2.1 section 4.17).
    pub(crate) outer: Option<WrittenLength>,
    /// The column of its faults.
    pub(crate) column: u32,
    /// Whether a tie is after it or after its chord.
    pub(crate) tied: bool,
}

/// The notes and other parts of a chord, or a note alone, so far.
#[derive(Drop)]
pub struct ChordBuilder {
    /// The accidentals after them.
    pub(crate) accidentals: Accidentals,
    pub(crate) tones: ShortSequence<Tone>,
    /// Those of the notes that are tied.
    pub(crate) tied: ShortSequence<TiedNote>,
    pub(crate) faults: Sequence<LocalFault>,
    /// Whether a note came last.
    pub(crate) after_note: bool,
    /// Whether there were more notes than a chord may have.
    pub(crate) big: bool,
}

impl ChordBuilder {
    /// No note yet.
    pub(crate) fn new(alloc: Global, state: &VoiceState) -> Result<ChordBuilder, AllocError>
        ensures { IfOk result (λ builder. builder ≡ no_notes state.now) }
    {
        Ok(ChordBuilder {
            accidentals: state.accidentals.clone()?,
            tones: ShortSequence::new(alloc),
            tied: ShortSequence::new(alloc),
            faults: Sequence::new(alloc),
            after_note: false,
            big: false,
        })
    }
}

/// The length of a written length, with that of the chord if there is one, and whether it is refused.
#[inline(always)]
pub(crate) fn length_in(
    state: &VoiceState,
    broken: &BrokenFactors,
    own: WrittenLength,
    outer: Option<WrittenLength>,
) -> (Grains, bool)
    ensures value { result ≡ length_in state.now broken.now own outer }
    ensures range { IsWithinLongest result.0 }
{
    length_or_unit(state.unit, own, outer, state.tuplet, broken)
}

/// Adds a fault at the end, if there is one.
fn push_fault_if(
    faults: &mut Sequence<LocalFault>,
    is_fault: bool,
    column: u32,
    code: FaultCode,
) -> Result<(), AllocError>
    ensures { OnOk result (faults.new ≡ faults.old ++ fault_if is_fault column code) }
{
    if is_fault {
        faults.push((column, code))?;
    }
    Ok(())
}

/// Adds the faults of a note at the end: its length is refused, or MIDI has no key for it.
fn push_note_faults(
    faults: &mut Sequence<LocalFault>,
    refused: bool,
    silent: bool,
    column: u32,
) -> Result<(), AllocError>
    ensures { OnOk result (faults.new ≡ faults.old
        ++ (fault_if refused column FaultCode.BadLength ++ fault_if silent column FaultCode.KeyRange)) }
{
    push_fault_if(faults, refused, column, FaultCode::BadLength)?;
    push_fault_if(faults, silent, column, FaultCode::KeyRange)?;
    Ok(())
}

/// Adds a tone at the end.
fn push_tone(tones: &mut ShortSequence<Tone>, tone: Tone) -> Result<(), AllocError>
    requires tone { IsTone tone }
    requires tones { All IsTone tones.old }
    ensures value { OnOk result (tones.new ≡ tones.old ++ tone ∷ []) }
    ensures range { OnOk result (All IsTone tones.new) }
{
    tones.push(tone)?;
    Ok(())
}

/// Adds a note at the end of the tied notes, if it is tied.
fn push_tied_if(
    notes: &mut ShortSequence<TiedNote>,
    tied: bool,
    note: TiedNote,
) -> Result<(), AllocError>
    ensures { OnOk result (notes.new ≡ (if tied then notes.old ++ note ∷ [] else notes.old)) }
{
    if tied {
        notes.push(note)?;
    }
    Ok(())
}

/// A note as its voice plays it.
#[derive(Clone, Copy)]
pub(crate) struct PlayedNote {
    pub(crate) tone: Tone,
    /// The note as a tie goes on from it.
    pub(crate) tied_note: TiedNote,
    /// Whether its length is refused.
    pub(crate) refused: bool,
}

/// Returns a note as it is played after these accidentals, in its context (ABC 2.1 sections 4.1 to 4.3).
#[inline(always)]
pub(crate) fn played_note_of(
    state: &VoiceState,
    accidentals: &Accidentals,
    broken: &BrokenFactors,
    context: NoteContext,
    note: Note,
) -> PlayedNote
    ensures tone { result.tone ≡ tone_in state.now accidentals.now broken.now context.outer note context.tied }
    ensures range { IsTone result.tone }
    ensures tied_note { result.tied_note ≡ tied_note_in state.now accidentals.now note }
    ensures is_refused { result.refused ≡ (length_in state.now broken.now note.length context.outer).1 }
{
    let alteration = alteration_of(state, accidentals, note);
    let key = key_of(state.shift, note, alteration);
    let (length, refused) = length_in(state, broken, note.length, context.outer);
    PlayedNote {
        tone: Tone {
            length,
            key,
            velocity: velocity_of(state.dynamic),
            tied: context.tied,
        },
        tied_note: TiedNote {
            letter: note.letter,
            octave: note.octave,
            alteration,
        },
        refused,
    }
}

/// Adds a note to those that sound together.
pub(crate) fn add_note(
    state: &VoiceState,
    broken: &BrokenFactors,
    context: NoteContext,
    note: Note,
    builder: &mut ChordBuilder,
) -> Result<(), AllocError>
    requires { All IsTone builder.old.tones }
    ensures value { OnOk result (builder.new ≡ with_note state.now broken.now context note builder.old) }
    ensures range { OnOk result (All IsTone builder.new.tones) }
{
    let PlayedNote {
        tone,
        tied_note,
        refused,
    } = played_note_of(state, &builder.accidentals, broken, context, note);
    let silent = tone.key.is_none();
    push_note_faults(&mut builder.faults, refused, silent, context.column)?;
    push_tone(&mut builder.tones, tone)?;
    push_tied_if(&mut builder.tied, context.tied, tied_note)?;
    write_own(&mut builder.accidentals, note)?;
    Ok(())
}

/// The accidentals after a single note, if it has one of its own: they are copied only then.
pub(crate) fn accidentals_after(
    state: &VoiceState,
    note: Note,
) -> Result<Option<Accidentals>, AllocError>
    ensures { IfOk result (λ changed. unwrap_or changed state.now.accidentals ≡ with_own state.now.accidentals note) }
{
    if note.accidental.is_none() {
        return Ok(None);
    }
    let mut accidentals = state.accidentals.clone()?;
    write_own(&mut accidentals, note)?;
    Ok(Some(accidentals))
}

/// The tied notes after a single note, if it or a note before it is tied.
pub(crate) fn tied_notes_after(
    alloc: Global,
    state: &VoiceState,
    tied: bool,
    note: TiedNote,
) -> Result<Option<ShortSequence<TiedNote>>, AllocError>
    ensures { IfOk result (λ changed. unwrap_or changed state.now.tied ≡ (if tied then note ∷ [] else [])) }
{
    if !tied && state.tied.as_slice().is_empty() {
        return Ok(None);
    }
    let mut notes = ShortSequence::new(alloc);
    push_tied_if(&mut notes, tied, note)?;
    Ok(Some(notes))
}
