//! Chord names in quoted text.

ghost use Rattle.std.specs.Prelude.{◌≡◌, ◌<◌, ◌≤◌, length, IfSome, option_map};
ghost use Rattle.abc_marks.specs.ChordName.{IsChordName};
ghost use Rattle.abc_marks_readers.specs.Harmony.{IsHarmony, bass_of, chord_name_of, harmony_of, is_no_chord, is_plain, kind_and_bass};
ghost use Rattle.abc_marks_readers.specs.Harmony.{last_part, pitch_class, root_letter, sign_at, without_part};

use crate::chord_kind::kind_named;
use abc_marks::{ChordKind, ChordName};
use abc_text::{Letter, cut_at, letter_of, trim_blanks};

/// The harmony that a quoted text sets.
#[derive(Clone, Copy, PartialEq, Eq)]
pub enum Harmony {
    Chord(ChordName),
    /// The harmony ends (`N.C.`).
    NoChord,
}

/// Returns the half tones that a sign at the front of a text adds, counted up to 11, and the rest after it.
fn sign_at(text: &[u8]) -> (u8, &[u8])
    ensures value { sign_at text.now ≡ (result.0, result.1.now) }
    ensures small { result.0 < 12 }
{
    match text {
        [b'#', following @ ..] => (1, following),
        [b'b', following @ ..] => (11, following),
        _ => (0, text),
    }
}

/// Returns the half tones of a letter and a sign above C.
fn pitch_class(letter: Letter, sign: u8) -> u8
    requires { sign < 12 }
    ensures value { result ≡ pitch_class letter sign }
    ensures range { result < 12 }
{
    (letter.semitones() + sign) % 12
}

/// Returns the letter of a root, which is a capital.
fn root_letter(byte: u8) -> Option<Letter>
    ensures { result ≡ root_letter byte }
{
    let letter = letter_of(byte)?;
    if letter.capital() == byte {
        Some(letter)
    } else {
        None
    }
}

/// Returns the bass that a text after the kind of a chord says: the root, or the letter after a slash.
fn bass_of(root: u8, text: &[u8]) -> Option<u8>
    requires { root < 12 }
    ensures value { result ≡ bass_of root text.now }
    ensures range { IfSome result (λ bass. bass < 12) }
{
    match text {
        [] => Some(root),
        [b'/', byte, rest @ ..] => {
            let letter = letter_of(*byte)?;
            let (sign, end) = sign_at(rest);
            if end.is_empty() {
                Some(pitch_class(letter, sign))
            } else {
                None
            }
        }
        _ => None,
    }
}

/// Returns the kind of a chord at the front of a text, and the rest from a slash on.
#[tactic(auto, unfolding(abc_text::specs::Cut::cut_at))]
fn kind_and_bass(text: &[u8]) -> Option<(ChordKind, &[u8])>
    ensures { option_map (λ r. (r.0, r.1.now)) result ≡ kind_and_bass text.now }
{
    if let Some(bass) = text.strip_prefix(b"6/9") {
        return Some((ChordKind::SixthNinth, bass));
    }
    match cut_at(text, b'/') {
        Some((name, _)) => Some((kind_named(name)?, &text[name.len()..])),
        None => Some((kind_named(text)?, &[])),
    }
}

/// Returns the chord that a text names.
fn chord_name_of(text: &[u8]) -> Option<ChordName>
    ensures value { result ≡ chord_name_of text.now }
    ensures range { IfSome result IsChordName }
{
    match text {
        [byte, following @ ..] => {
            let letter = root_letter(*byte)?;
            let (sign, rest) = sign_at(following);
            let root = pitch_class(letter, sign);
            let (kind, bass) = kind_and_bass(rest)?;
            let bass = bass_of(root, bass)?;
            Some(ChordName { root, kind, bass })
        }
        [] => None,
    }
}

/// Returns whether a byte is no parenthesis.
fn is_plain(byte: u8) -> bool
    ensures { result ≡ is_plain byte }
{
    byte != b'(' && byte != b')'
}

/// Returns the number of bytes at the end of a text that are no parentheses.
fn last_part(text: &[u8]) -> usize
    ensures value { result ≡ last_part text.now }
    ensures inside { result ≤ length text.now }
{
    text.iter()
        .rev()
        .take_while(|byte| is_plain(**byte))
        .count()
}

/// Returns a text without the part in parentheses at its end.
fn without_part(text: &[u8]) -> &[u8]
    ensures { result.now ≡ without_part text.now }
{
    if !text.ends_with(b")") {
        return text;
    }
    let inside = &text[..text.len() - 1];
    let front = &inside[..inside.len() - last_part(inside)];
    if front.ends_with(b"(") {
        &front[..front.len() - 1]
    } else {
        text
    }
}

/// Returns whether a text ends the harmony.
fn is_no_chord(text: &[u8]) -> bool
    ensures { result ≡ is_no_chord text.now }
{
    text == b"N.C.".as_slice() || text == b"NC".as_slice()
}

/// Returns the harmony that a quoted text sets, given the bytes between its quotes (ABC 2.1 section 4.18). Blanks at its ends
/// and a part in parentheses at its end do not count.
#[tactic(auto, unfolding(crate::specs::Harmony::harmony_of))]
pub fn harmony_of(text: &[u8]) -> Option<Harmony>
    ensures value { result ≡ harmony_of text.now }
    ensures range { IfSome result IsHarmony }
{
    let name = trim_blanks(without_part(trim_blanks(text)));
    if is_no_chord(name) {
        return Some(Harmony::NoChord);
    }
    let name = chord_name_of(name)?;
    Some(Harmony::Chord(name))
}
