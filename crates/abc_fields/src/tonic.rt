//! The front of a key: its tonic, and its mode.

ghost use Rattle.std.specs.Prelude.{◌≡◌, ◌≤◌, length, MatchOption, IfSome, pos, negsuc, ◌≤ℤ◌};
ghost use Rattle.std.specs.List.{prefix_len};
ghost use Rattle.std.specs.Char.{is_ascii_alphabetic};
ghost use Rattle.abc_fields.specs.Tonic.{major_sharps, tonic_letter, sign_at, tonic_at, key_mode_at, IsMajor};

use crate::mode::{Mode, mode_of};
use crate::signature::fifths;
use abc_text::{Letter, leading_blanks, letter_of};

/// The mode of a key.
#[derive(Clone, Copy)]
pub(crate) enum KeyMode {
    /// The tonic and this mode.
    Named(Mode),
    /// Only the listed accidentals (`exp`).
    Explicit,
}

/// The sharps of the major key on a letter.
fn major_sharps(letter: Letter) -> i8
    ensures value { result ≡ major_sharps letter }
    ensures low { negsuc 0 ≤ℤ result }
    ensures high { result ≤ℤ pos 5 }
{
    fifths(letter) - 1
}

/// The letter of a tonic, which is a capital.
fn tonic_letter(byte: u8) -> Option<Letter>
    ensures { result ≡ tonic_letter byte }
{
    let letter = letter_of(byte)?;
    if letter.capital() == byte {
        Some(letter)
    } else {
        None
    }
}

/// Returns the sharps that a sign at the front of a text adds, and the rest after it.
fn sign_at(text: &[u8]) -> (i8, &[u8])
    ensures value { sign_at text.now ≡ (result.0, result.1.now) }
    ensures range { (negsuc 6 ≤ℤ result.0) × (result.0 ≤ℤ pos 7) }
{
    match text {
        [b'#', following @ ..] => (7, following),
        [b'b', following @ ..] => (-7, following),
        _ => (0, text),
    }
}

/// Returns the sharps of the major key on the tonic at the front of a text, and the rest after it.
pub(crate) fn tonic_at(text: &[u8]) -> Option<(i8, &[u8])>
    ensures value { MatchOption result (tonic_at text.now ≡ None)
        (λ p. tonic_at text.now ≡ Some (p.0, p.1.now)) }
    ensures range { IfSome result (λ p. IsMajor p.0) }
{
    match text {
        [] => None,
        [byte, following @ ..] => {
            let letter = tonic_letter(*byte)?;
            let (added, rest) = sign_at(following);
            Some((major_sharps(letter) + added, rest))
        }
    }
}

/// Returns the number of letters at the front of a text.
fn letters(text: &[u8]) -> usize
    ensures value { result ≡ prefix_len is_ascii_alphabetic text.now }
    ensures inside { result ≤ length text.now }
{
    text.iter()
        .take_while(|byte| byte.is_ascii_alphabetic())
        .count()
}

/// Returns the mode of the key, by the text after the tonic, and the rest with the other words.
#[tactic(auto, unfolding(crate::specs::Tonic::key_mode_at))]
pub(crate) fn key_mode_at(text: &[u8]) -> Option<(KeyMode, &[u8])>
    ensures { MatchOption result (key_mode_at text.now ≡ None)
        (λ p. key_mode_at text.now ≡ Some (p.0, p.1.now)) }
{
    let blanks = leading_blanks(text);
    let following = &text[blanks..];
    let (run, rest) = following.split_at(letters(following));
    if let Some(mode) = mode_of(run) {
        return Some((KeyMode::Named(mode), rest));
    }
    if run.is_empty() {
        return Some((KeyMode::Named(Mode::Ionian), text));
    }
    if blanks == 0 {
        return None;
    }
    if run == b"exp".as_slice() {
        return Some((KeyMode::Explicit, rest));
    }
    Some((KeyMode::Named(Mode::Ionian), text))
}
