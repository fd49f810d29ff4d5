//! Notes and rests.

ghost use Rattle.std.specs.Prelude.{◌≡◌, ◌≤◌, ◌<◌, ◌+◌, ◌^◌, length, IfSome, count_by, ◌==◌};
ghost use Rattle.std.specs.List.{prefix_len};
ghost use Rattle.abc_scan.specs.Front.{IsFront};
ghost use Rattle.abc_scan.specs.Note.{accidental_at, accidental_size, is_octave_mark, octave, letter_octave, ends_letter};
ghost use Rattle.abc_scan.specs.Note.{is_factor, IsPlain, IsShort, note_at, rest_at};

use crate::length::{WrittenLength, begins_length, length_at};
use abc_text::{Accidental, Letter, letter_of};

/// A note as it is written (ABC 2.1 sections 4.1 to 4.3).
#[derive(Clone, Copy)]
pub struct Note {
    /// None if none is written.
    pub accidental: Option<Accidental>,
    pub letter: Letter,
    /// Octaves above that of the capital letters: one for a small letter and for each `'`, less one
    /// for each `,`.
    pub octave: i32,
    pub length: WrittenLength,
}

/// The accidental at the front of a text, and its size in bytes.
#[tactic(auto, unfolding(crate::specs::Note::accidental_at))]
fn accidental_at(text: &[u8]) -> (Option<Accidental>, usize)
    ensures value { result.0 ≡ accidental_at text.now }
    ensures size { result.1 ≡ accidental_size result.0 }
    ensures inside { result.1 ≤ length text.now }
{
    match text {
        [b'^', b'^', ..] => (Some(Accidental::DoubleSharp), 2),
        [b'^', ..] => (Some(Accidental::Sharp), 1),
        [b'_', b'_', ..] => (Some(Accidental::DoubleFlat), 2),
        [b'_', ..] => (Some(Accidental::Flat), 1),
        [b'=', ..] => (Some(Accidental::Natural), 1),
        _ => (None, 0),
    }
}

/// Returns the number of octave marks at the front of a text.
fn octave_marks(text: &[u8]) -> usize
    ensures value { result ≡ prefix_len is_octave_mark text.now }
    ensures inside { result ≤ length text.now }
{
    text.iter()
        .take_while(|byte| **byte == b'\'' || **byte == b',')
        .count()
}

/// The octave of a letter without marks.
fn letter_octave(letter: u8) -> usize
    ensures value { result ≡ letter_octave letter }
    ensures small { result ≤ 1 }
{
    if letter < b'a' { 0 } else { 1 }
}

/// Returns how often a mark is among the marks of a note.
fn occurrences(marks: &[u8], mark: u8) -> usize
    ensures value { result ≡ count_by (λ b. b == mark) marks.now }
    ensures inside { result ≤ length marks.now }
{
    marks.iter().filter(|byte| **byte == mark).count()
}

/// The octave of a letter with these marks after it.
fn octave(letter: u8, marks: &[u8]) -> i32
    requires { length marks.now + 1 < 2 ^ 31 }
    ensures { result ≡ octave letter marks.now }
{
    let raised = letter_octave(letter) + occurrences(marks, b'\'');
    let lowered = occurrences(marks, b',');
    raised as i32 - lowered as i32
}

/// Returns whether a text begins with neither an octave mark nor a length.
#[inline(always)]
fn ends_letter(text: &[u8]) -> bool
    ensures { result ≡ ends_letter text.now }
{
    match text {
        [] => true,
        [byte, ..] => !matches!(*byte, b'\'' | b',' | b'/' | b'0'..=b'9'),
    }
}

/// The note of a letter without accidental or octave marks, `num` times as long as the unit.
#[inline(always)]
fn plain_note(byte: u8, num: u32) -> Option<Note>
    ensures { IfSome result (λ note. IsPlain byte num note) }
{
    let letter = letter_of(byte)?;
    let octave = letter_octave(byte) as i32;
    Some(Note {
        accidental: None,
        letter,
        octave,
        length: WrittenLength::Factor { num, den: 1 },
    })
}

/// Returns whether a byte is a digit that alone is a length: 0 is refused.
#[inline(always)]
fn is_factor(byte: u8) -> bool
    ensures { result ≡ is_factor byte }
{
    matches!(byte, b'1'..=b'9')
}

/// The note at the front of a text that is a letter alone or one with one digit, and its size in bytes: most notes are
/// such.
#[inline(always)]
#[tactic(auto, using(crate::proofs::Notes::letter_alone, crate::proofs::Notes::letter_digit))]
pub(crate) fn short_note_at(text: &[u8]) -> Option<(Note, usize)>
    ensures value { IfSome result (λ r. IsShort text.now r) }
    ensures front { IfSome result (λ r. IsFront text.now r.1) }
{
    match text {
        [byte, rest @ ..] if ends_letter(rest) => Some((plain_note(*byte, 1)?, 1)),
        [byte, digit, rest @ ..] if is_factor(*digit) && !begins_length(rest) => {
            Some((plain_note(*byte, u32::from(*digit - b'0'))?, 2))
        }
        _ => None,
    }
}

/// The note at the front of a text, and its size in bytes.
#[tactic(auto, unfolding(crate::specs::Note::note_at))]
pub(crate) fn note_at(text: &[u8]) -> Option<(Note, usize)>
    requires { length text.now < 2 ^ 31 }
    ensures value { result ≡ note_at text.now }
    ensures front { IfSome result (λ r. IsFront text.now r.1) }
{
    let (accidental, sign) = accidental_at(text);
    match &text[sign..] {
        [] => None,
        [byte, rest @ ..] => {
            let letter = letter_of(*byte)?;
            let marks = octave_marks(rest);
            let octave = octave(*byte, &rest[..marks]);
            let (length, size) = length_at(&rest[marks..]);
            let note = Note {
                accidental,
                letter,
                octave,
                length,
            };
            Some((note, sign + 1 + marks + size))
        }
    }
}

/// The length of the rest at the front of a text, and its size in bytes.
#[tactic(auto, unfolding(crate::specs::Note::rest_at))]
pub(crate) fn rest_at(text: &[u8]) -> Option<(WrittenLength, usize)>
    ensures value { result ≡ rest_at text.now }
    ensures front { IfSome result (λ r. IsFront text.now r.1) }
{
    match text {
        [b'z' | b'x', following @ ..] => {
            let (length, size) = length_at(following);
            Some((length, 1 + size))
        }
        _ => None,
    }
}
