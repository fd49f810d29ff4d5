//! The keys of notes.

ghost use Rattle.std.specs.Prelude.{◌≡◌, ◌^◌, ◌<◌, ◌≤◌, ◌≤ℤ◌, pos, negsuc, IfSome, IsTrue};
ghost use Rattle.abc_text.specs.Letter.{semitones};
ghost use Rattle.abc_bars_notes.specs.Pitch.{is_unshifted, midi_key, pitch_of, total_shift, written_pitch};

use abc_bars_items::HIGHEST_KEY;
use abc_bars_voice::VoiceShift;
use abc_scan::{Letter, Note};

/// The key of the middle C, which is a capital C (ABC 2.1 section 4.1).
pub(crate) const MIDDLE_C: u8 = 60;

/// The semitones of an octave.
pub(crate) const OCTAVE: i64 = 12;

/// `OCTAVE` as an `i128`.
const WIDE_OCTAVE: i128 = 12;

/// The semitones of a letter above the C below it.
fn semitones(letter: Letter) -> u8
    ensures value { result ≡ semitones letter }
    ensures within_octave { result < 12 }
{
    letter.semitones()
}

/// The semitones that notes sound above what is written.
fn total_shift(shift: VoiceShift) -> i128
    ensures value { result ≡ total_shift shift }
    ensures low { negsuc (2 ^ 70) ≤ℤ result }
    ensures high { result ≤ℤ pos (2 ^ 70) }
{
    let clef = i128::from(shift.clef);
    let octave = i128::from(shift.octave);
    let transpose = i128::from(shift.transpose);
    clef + WIDE_OCTAVE * octave + transpose
}

/// Whether notes sound as they are written.
fn is_unshifted(shift: VoiceShift) -> bool
    ensures exact { result ≡ is_unshifted shift }
    ensures zero { IsTrue result → total_shift shift ≡ pos 0 }
{
    match (shift.clef, shift.octave, shift.transpose) {
        (0, 0, 0) => true,
        _ => false,
    }
}

/// The pitch of a note with this alteration as it is written, counted in semitones.
fn written_pitch(note: Note, by: i8) -> i64
    ensures { result ≡ written_pitch note by }
{
    let octaves = OCTAVE * i64::from(note.octave);
    i64::from(MIDDLE_C + semitones(note.letter)) + octaves + i64::from(by)
}

/// The key of MIDI of a pitch, if it has one.
fn midi_key(pitch: i128) -> Option<u8>
    ensures value { result ≡ midi_key pitch }
    ensures range { IfSome result (λ key. key ≤ HIGHEST_KEY) }
{
    if pitch < 0 || pitch > i128::from(HIGHEST_KEY) {
        None
    } else {
        Some(pitch as u8)
    }
}

/// The MIDI key of a note with this alteration, if MIDI has it. Few voices are shifted, which takes 128 bits.
#[inline(always)]
pub fn key_of(shift: VoiceShift, note: Note, by: i8) -> Option<u8>
    ensures value { result ≡ midi_key (pitch_of shift note by) }
    ensures range { IfSome result (λ key. key ≤ HIGHEST_KEY) }
{
    let written = i128::from(written_pitch(note, by));
    if is_unshifted(shift) {
        return midi_key(written);
    }
    midi_key(written + total_shift(shift))
}
