//! Notes, chords and rests: their items and faults, and the state of the voice after them.

ghost use Rattle.std.specs.Prelude.{◌≡◌, ℕ, List, ◌∷◌, [], false, All, IfOk, IsTrue, None, OnErr, OnOk, is_none, unwrap_or};
ghost use Rattle.abc_time.specs.declared.ratio.Ratio.{Ratio};
ghost use Rattle.abc_fields.specs.declared.fault_code.FaultCode.TheVariants.{BadLength, EmptyChord, KeyRange};
ghost use Rattle.abc_bars_items.specs.Column.{column_of};
ghost use Rattle.abc_bars_items.specs.Item.{AreTones, IsItem, IsTone, IsWithinLongest, append_faults, append_item};
ghost use Rattle.abc_bars_notes.specs.Sound.{fault_if, length_in, tied_note_in, tone_in};
ghost use Rattle.abc_bars_items.specs.declared.item.Item.TheVariants as item_kinds;
ghost use Rattle.abc_bars_voice.specs.Tuplet.{count_down};
ghost use Rattle.abc_bars_notes.specs.TimeTokens.{first_length, is_steady, sound_notes, play_note, play_chord, play_rest};
ghost use Rattle.abc_bars_notes.specs.TimeTokens.{voice_after, with_result, with_tone};

use crate::broken::BrokenFactors;
use crate::chords::{ChordContext, chord_builder_of};
use crate::role::has_note;
use crate::sound::{
    ChordBuilder, NoteContext, PlayedNote, accidentals_after, length_in, played_note_of,
    tied_notes_after,
};
use abc_bars_items::{Item, ItemsBuilder, LocalFault, Tone, Tones, column_of};
use abc_bars_voice::{Accidentals, TiedNote, VoiceState, count_down};
use abc_fields::FaultCode;
use abc_scan::{Chord, Note, WrittenLength};
use abc_text::ShortSequence;
use abc_time::Grains;
use std::alloc::{AllocError, Global};

/// The place of a note or chord in its line.
#[derive(Clone, Copy)]
pub struct NotePlace {
    /// The place of its first byte, counted from 0.
    pub from: usize,
    /// Whether a tie is after it.
    pub tied: bool,
}

/// The length of the first tone.
fn first_length(tones: &[Tone]) -> Grains
    ensures value { result ≡ first_length tones.now }
    ensures range { All IsTone tones.now → IsWithinLongest result }
{
    match tones {
        [tone, ..] => tone.length,
        [] => Grains(0),
    }
}

/// Adds notes that sound together (ABC 2.1 sections 4.1 and 4.17).
fn push_notes(
    alloc: Global,
    state: &mut VoiceState,
    items: &mut ItemsBuilder,
    builder: ChordBuilder,
) -> Result<(), AllocError>
    requires { AreTones builder.tones }
    ensures state { OnOk result (state.new ≡ (sound_notes state.old builder).state) }
    ensures items { OnOk result (items.new ≡ with_result items.old (sound_notes state.old builder)) }
    ensures unchanged { OnErr result ((state.new ≡ state.old) × (items.new ≡ items.old)) }
{
    let ChordBuilder {
        accidentals,
        tones,
        tied,
        faults,
        after_note: _,
        big: _,
    } = builder;
    let length = first_length(tones.as_slice());
    let tones = Tones::of(alloc, tones)?;
    items.push_with_faults(Item::Tone { tones, length }, faults.as_slice())?;
    state.accidentals = accidentals;
    state.tuplet = count_down(state.tuplet);
    state.tied = tied;
    Ok(())
}

/// Adds a single note, and its faults: its length is refused, or MIDI has no key for it. Few notes have one.
#[inline(always)]
fn push_note(
    items: &mut ItemsBuilder,
    tone: Tone,
    refused: bool,
    column: u32,
) -> Result<(), AllocError>
    requires { IsTone tone }
    ensures ok { OnOk result (items.new ≡ with_tone items.old tone refused column) }
    ensures unchanged { OnErr result (items.new ≡ items.old) }
{
    if refused || tone.key.is_none() {
        return push_faulty_note(items, tone, refused, column);
    }
    items.push_item(item_of(tone))
}

/// The item of a single note.
fn item_of(tone: Tone) -> Item
    requires { IsTone tone }
    ensures value { result ≡ item_kinds.Tone (tone ∷ []) tone.length }
    ensures range { IsItem result }
{
    Item::Tone {
        tones: Tones::one(tone),
        length: tone.length,
    }
}

/// Adds a single note that has faults.
#[inline(never)]
fn push_faulty_note(
    items: &mut ItemsBuilder,
    tone: Tone,
    refused: bool,
    column: u32,
) -> Result<(), AllocError>
    requires { IsTone tone }
    ensures ok { OnOk result (items.new ≡ with_tone items.old tone refused column) }
    ensures unchanged { OnErr result (items.new ≡ items.old) }
{
    let item = item_of(tone);
    let length = (column, FaultCode::BadLength);
    let key = (column, FaultCode::KeyRange);
    match (refused, tone.key) {
        (false, Some(_)) => items.push_item(item),
        (true, Some(_)) => items.push_with_faults(item, &[length]),
        (false, None) => items.push_with_faults(item, &[key]),
        (true, None) => items.push_with_faults(item, &[length, key]),
    }
}

/// Whether a note leaves the state of its voice as it is. Most notes do.
#[inline(always)]
fn leaves_voice(state: &VoiceState, note: Note, tied: bool) -> bool
    ensures exact { result ≡ is_steady state.now note tied }
    ensures state { (broken : List Ratio) (from : ℕ) → IsTrue result
        → (play_note state.now broken tied from note).state ≡ state.now }
{
    match (tied, note.accidental, state.tuplet, state.tied.as_slice()) {
        (false, None, None, []) => true,
        _ => false,
    }
}

/// Updates the state of a voice after a single note; the accidentals and tied notes only if they change.
#[inline(always)]
fn update_voice(
    state: &mut VoiceState,
    accidentals: Option<Accidentals>,
    tied: Option<ShortSequence<TiedNote>>,
)
    ensures { state.new ≡ record state.old {
      accidentals = unwrap_or accidentals state.old.accidentals;
      tuplet = count_down state.old.tuplet;
      tied = unwrap_or tied
          state.old.tied;
    } }
{
    if let Some(accidentals) = accidentals {
        state.accidentals = accidentals;
    }
    state.tuplet = count_down(state.tuplet);
    if let Some(tied) = tied {
        state.tied = tied;
    }
}

/// Adds a note that may change the state of its voice.
fn push_changing_note(
    alloc: Global,
    state: &mut VoiceState,
    items: &mut ItemsBuilder,
    note: Note,
    played_note: PlayedNote,
    column: u32,
) -> Result<(), AllocError>
    requires { IsTone played_note.tone }
    ensures state { OnOk result (state.new ≡ voice_after state.old note played_note.tone.tied played_note.tied_note) }
    ensures items { OnOk result (items.new ≡ with_tone items.old played_note.tone played_note.refused column) }
    ensures unchanged { OnErr result ((state.new ≡ state.old) × (items.new ≡ items.old)) }
{
    let PlayedNote {
        tone,
        tied_note,
        refused,
    } = played_note;
    let accidentals = accidentals_after(state, note)?;
    let tied = tied_notes_after(alloc, state, tone.tied, tied_note)?;
    push_note(items, tone, refused, column)?;
    update_voice(state, accidentals, tied);
    Ok(())
}

/// Returns a single note as it is played at a place of its line.
#[inline(always)]
fn played_note_at(
    state: &VoiceState,
    broken: &BrokenFactors,
    note: Note,
    place: NotePlace,
) -> PlayedNote
    ensures tone { result.tone ≡ tone_in state.now state.now.accidentals broken.now None note place.tied }
    ensures range { IsTone result.tone }
    ensures tied_note { result.tied_note ≡ tied_note_in state.now state.now.accidentals note }
    ensures is_refused { result.refused ≡ (length_in state.now broken.now note.length None).1 }
{
    let context = NoteContext {
        outer: None,
        column: column_of(place.from),
        tied: place.tied,
    };
    played_note_of(state, &state.accidentals, broken, context, note)
}

/// Adds a note if it surely leaves the state of its voice as it is, and returns whether it did. Most notes do. The test comes
/// first, since it makes the rest cheaper. It returns an error if an allocation fails.
#[inline(always)]
pub fn play_steady_note(
    state: &VoiceState,
    items: &mut ItemsBuilder,
    note: Note,
    broken: &BrokenFactors,
    place: NotePlace,
) -> Result<bool, AllocError>
    ensures exact { IfOk result (λ played. played ≡ is_steady state.now note place.tied) }
    ensures state { IfOk result (λ played. IsTrue played
        → (play_note state.now broken.now place.tied place.from note).state ≡ state.now) }
    ensures items { IfOk result (λ played. IsTrue played
        → items.new ≡ with_result items.old (play_note state.now broken.now place.tied place.from note)) }
    ensures not_played { IfOk result (λ played. played ≡ false → items.new ≡ items.old) }
    ensures unchanged { OnErr result (items.new ≡ items.old) }
{
    if !leaves_voice(state, note, place.tied) {
        return Ok(false);
    }
    let PlayedNote { tone, refused, .. } = played_note_at(state, broken, note, place);
    push_note(items, tone, refused, column_of(place.from))?;
    Ok(true)
}

/// Adds a note, also if it changes the state of its voice. Few notes do, so it is not inlined into what each note runs. It
/// returns an error if an allocation fails.
#[inline(never)]
pub fn play_note(
    alloc: Global,
    state: &mut VoiceState,
    items: &mut ItemsBuilder,
    note: Note,
    broken: &BrokenFactors,
    place: NotePlace,
) -> Result<(), AllocError>
    ensures state { OnOk result (state.new ≡ (play_note state.old broken.now place.tied place.from note).state) }
    ensures items { OnOk result (items.new ≡ with_result items.old (play_note state.old broken.now place.tied place.from note)) }
    ensures unchanged { OnErr result ((state.new ≡ state.old) × (items.new ≡ items.old)) }
{
    let played_note = played_note_at(state, broken, note, place);
    push_changing_note(
        alloc,
        state,
        items,
        note,
        played_note,
        column_of(place.from),
    )
}

/// The faults of a chord without a note; its own comes first.
fn silent_faults(builder: ChordBuilder, from: usize) -> Result<Vec<LocalFault>, AllocError>
    ensures { IfOk result (λ faults. faults.items ≡ (column_of from, EmptyChord) ∷ builder.faults) }
{
    let ChordBuilder { faults, .. } = builder;
    let mut faults = faults.into_vec();
    faults.insert(0, (column_of(from), FaultCode::EmptyChord))?;
    Ok(faults)
}

/// Adds the faults of a chord without a note, which takes no time.
fn push_empty_chord(
    items: &mut ItemsBuilder,
    builder: ChordBuilder,
    from: usize,
) -> Result<(), AllocError>
    ensures ok { OnOk result (items.new ≡ append_faults items.old ((column_of from, EmptyChord) ∷ builder.faults)) }
    ensures unchanged { OnErr result (items.new ≡ items.old) }
{
    let faults = silent_faults(builder, from)?;
    items.push_faults(faults.as_slice())?;
    Ok(())
}

/// Adds a chord: one without a note takes no time. It returns an error if an allocation fails.
pub fn play_chord(
    alloc: Global,
    state: &mut VoiceState,
    items: &mut ItemsBuilder,
    chord: &Chord,
    broken: &BrokenFactors,
    place: NotePlace,
) -> Result<(), AllocError>
    ensures state { OnOk result (state.new ≡ (play_chord state.old broken.now place.tied place.from chord.now).state) }
    ensures items { OnOk result (items.new ≡ with_result items.old
        (play_chord state.old broken.now place.tied place.from chord.now)) }
    ensures unchanged { OnErr result ((state.new ≡ state.old) × (items.new ≡ items.old)) }
{
    let chord_context = ChordContext {
        length: chord.length,
        tied: place.tied,
        from: place.from,
    };
    let parts = chord.parts.as_slice();
    let builder = chord_builder_of(alloc, state, broken, chord_context, parts)?;
    if has_note(parts) {
        push_notes(alloc, state, items, builder)?;
    } else {
        push_empty_chord(items, builder, place.from)?;
    }
    Ok(())
}

/// Adds a rest, and its fault if its length is refused.
fn push_rest(
    items: &mut ItemsBuilder,
    length: Grains,
    refused: bool,
    column: u32,
) -> Result<(), AllocError>
    requires { IsWithinLongest length }
    ensures ok { OnOk result (items.new ≡ append_item (append_faults items.old (fault_if refused column BadLength))
        (item_kinds.Rest length false)) }
    ensures unchanged { OnErr result (items.new ≡ items.old) }
{
    let rest = Item::Rest { length, bar: false };
    if refused {
        items.push_with_faults(rest, &[(column, FaultCode::BadLength)])
    } else {
        items.push_item(rest)
    }
}

/// Adds a rest at a place of its line, counted from 0 (ABC 2.1 section 4.5). It returns an error if an allocation fails.
pub fn play_rest(
    alloc: Global,
    state: &mut VoiceState,
    items: &mut ItemsBuilder,
    written: WrittenLength,
    broken: &BrokenFactors,
    from: usize,
) -> Result<(), AllocError>
    ensures state { OnOk result (state.new ≡ (play_rest state.old broken.now from written).state) }
    ensures items { OnOk result (items.new ≡ with_result items.old (play_rest state.old broken.now from written)) }
    ensures unchanged { OnErr result ((state.new ≡ state.old) × (items.new ≡ items.old)) }
{
    let (length, refused) = length_in(state, broken, written, None);
    push_rest(items, length, refused, column_of(from))?;
    state.tuplet = count_down(state.tuplet);
    state.tied = ShortSequence::new(alloc);
    Ok(())
}
