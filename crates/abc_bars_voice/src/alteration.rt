//! By how many semitones notes are altered.

ghost use Rattle.std.specs.Prelude.{◌≡◌, OnErr, OnOk};
ghost use Rattle.abc_bars_voice.specs.Alteration.{alteration_of, goes_on_in, own_alteration, tied_alteration, with_own};

use crate::accidentals::Accidentals;
use crate::tied_note::TiedNote;
use crate::voice_state::VoiceState;
use abc_fields::alteration;
use abc_scan::Note;
use std::alloc::AllocError;

/// The alteration of the note's own accidental, if it has one.
fn own_alteration(note: Note) -> Option<i8>
    ensures { result ≡ own_alteration note }
{
    note.accidental.map(|accidental| accidental.alteration())
}

/// Whether a tied note has the letter and the octave of a note.
fn goes_on_in(note: Note, tied: TiedNote) -> bool
    ensures { result ≡ goes_on_in note tied }
{
    tied.letter.capital() == note.letter.capital() && tied.octave == note.octave
}

/// The alteration of the last tied note with the letter and the octave of a note.
fn tied_alteration(tied: &[TiedNote], note: Note) -> Option<i8>
    ensures { result ≡ tied_alteration tied.now note }
{
    let last = tied.iter().rev().find(|tied| goes_on_in(note, **tied))?;
    Some(last.alteration)
}

/// Returns the semitones by which a note is altered (ABC 2.1 sections 4.2 and 4.11). The first of these counts: its own
/// accidental; the last one in the bar that reaches it; that of the note tied to it; the signature.
#[inline(always)]
pub fn alteration_of(state: &VoiceState, accidentals: &Accidentals, note: Note) -> i8
    ensures { result ≡ alteration_of state.now accidentals.now note }
{
    if let Some(by) = own_alteration(note) {
        return by;
    }
    if let Some(by) = accidentals.on(note) {
        return by;
    }
    if let Some(by) = tied_alteration(state.tied.as_slice(), note) {
        return by;
    }
    alteration(&state.signature, note.letter)
}

/// Adds a note's own accidental, if it has one, after the others. It returns an error if an allocation fails.
pub fn write_own(accidentals: &mut Accidentals, note: Note) -> Result<(), AllocError>
    ensures ok { OnOk result (accidentals.new ≡ with_own accidentals.old note) }
    ensures unchanged { OnErr result (accidentals.new ≡ accidentals.old) }
{
    if let Some(by) = own_alteration(note) {
        accidentals.set(note, by)?;
    }
    Ok(())
}
