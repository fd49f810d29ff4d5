//! Laws of the keys that notes sound at the places of a tune.

ghost use Rattle.abc_scan.specs.declared.note.Note.{Note};
ghost use Rattle.std.specs.Prelude.{List};
ghost use Rattle.abc_bars.specs.LookBack.CellPlace.{VoicePlace};
ghost use Rattle.abc_bars.specs.LookBack.Keys.{ChordsHaveKeys, IsAlteredAt, NotesHaveKeys};

/// A note at a place of its voice is altered by the first of these that there is (ABC 2.1 sections 4.2, 4.11 and 11.3):
///
/// - its own accidental;
/// - the last one before it in its chord that reaches it;
/// - the last one that reaches it since the voice's last bar line, K: or accepted P:;
/// - what altered the last tied note of its letter and octave in the voice's preceding note, chord or rest;
/// - the signature.
///
/// The header sets how far an accidental reaches.
pub fn alterations_of_notes()
    ensures { (at : VoicePlace) (earlier : List Note) (note : Note) → IsAlteredAt at earlier note }
{}

/// Each note, and each chord with a note, gives one item, after those of the tokens before it in its cell. The note, or each of
/// the first sixteen notes of the chord, sounds the key of its pitch, if MIDI has it. The pitch is altered as in
/// `alterations_of_notes`, and moved by the shift of its voice. A tone is tied if a tie directly follows the note or its chord
/// (ABC 2.1 sections 4.1, 4.6 and 4.17).
pub fn keys_at_places()
    ensures notes { NotesHaveKeys }
    ensures chords { ChordsHaveKeys }
{}
