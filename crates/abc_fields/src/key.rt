//! Keys.

ghost use Rattle.std.specs.Prelude.{◌≡◌, ◌+ℤ◌, Some, None, MatchOption, IfOk};
ghost use Rattle.abc_fields.specs.declared.key.Key.{Key};
ghost use Rattle.abc_text.specs.Word.{words_of};
ghost use Rattle.abc_fields.specs.Mode.{added_sharps};
ghost use Rattle.abc_fields.specs.Tonic.{IsMajor, key_mode_at};
ghost use Rattle.abc_fields.specs.Key.{complete_key, key_with, key_on, begins_accidental, sets_properties, toneless_start};
ghost use Rattle.abc_fields.specs.Key.{tonal_start, start_of, key_in, key_of, key_or_empty, IsInRange};
ghost use Rattle.abc_fields.specs.Reading.{IsReading};
ghost use Rattle.abc_fields.specs.Spelling.Key.{IsKey};

use crate::clef::{is_clef_name, mark_of};
use crate::fault_code::FaultCode;
use crate::listed::with_accidentals;
use crate::mode::Mode;
use crate::shift::{NO_SHIFT, Shift, shift_in};
use crate::signature::{NATURAL, Signature, signature_of};
use crate::tonic::{KeyMode, key_mode_at, tonic_at};
use abc_text::next_word;

/// A key and its properties (ABC 2.1 section 3.1.14).
#[derive(Clone, Copy)]
pub struct Key {
    /// None if the value only sets properties. Then the signature stays.
    pub signature: Option<Signature>,
    /// The sharps of the tonic in its mode, from -7 to 7, negative for flats; 0 without a tonic and with `exp`.
    pub sharps: i8,
    /// Whether the mode is minor; not with `exp`.
    pub minor: bool,
    /// The shift of the notes.
    pub shift: Shift,
}

/// The key of a signature without sharps and flats: the key of an empty value, of `none`, and of a refused value.
pub const EMPTY_KEY: Key = Key {
    signature: Some(NATURAL),
    sharps: 0,
    minor: false,
    shift: NO_SHIFT,
};

/// The key of a value that only sets properties: the signature stays.
const UNCHANGED_KEY: Key = Key {
    signature: None,
    sharps: 0,
    minor: false,
    shift: NO_SHIFT,
};

/// The sharps of a mode on the tonic whose major key has `major` of them.
fn sharps_in(major: i8, mode: Mode) -> i8
    requires { IsMajor major }
    ensures { result ≡ major +ℤ added_sharps mode }
{
    major + mode.added_sharps()
}

/// The key with this number of sharps, if it has at most seven sharps or flats.
#[tactic(auto, unfolding(crate::specs::Key::key_with))]
fn key_with(sharps: i8, minor: bool) -> Option<Key>
    ensures { result ≡ key_with sharps minor }
{
    if sharps < -7 || sharps > 7 {
        return None;
    }
    Some(Key {
        signature: Some(signature_of(sharps)),
        sharps,
        minor,
        shift: NO_SHIFT,
    })
}

/// The key of a mode on the tonic whose major key has these sharps.
fn key_on(major: i8, key_mode: KeyMode) -> Option<Key>
    requires { IsMajor major }
    ensures { result ≡ key_on major key_mode }
{
    match key_mode {
        KeyMode::Named(mode) => key_with(sharps_in(major, mode), mode.is_minor()),
        KeyMode::Explicit => Some(EMPTY_KEY),
    }
}

/// Returns whether a word sets properties, as the first word.
fn sets_properties(word: &[u8]) -> bool
    ensures { result ≡ sets_properties word.now }
{
    word.contains(&b'=') || mark_of(word).is_some() || is_clef_name(word)
}

/// Returns whether a word begins with an accidental.
fn begins_accidental(word: &[u8]) -> bool
    ensures { result ≡ begins_accidental word.now }
{
    matches!(word, [b'^' | b'_' | b'=', ..])
}

/// Returns the beginning of a key without a tonic, by its first word: an empty signature before listed accidentals, or
/// no signature.
fn toneless_start(first: &[u8]) -> Option<Key>
    ensures { result ≡ toneless_start first.now }
{
    if begins_accidental(first) {
        Some(EMPTY_KEY)
    } else if sets_properties(first) {
        Some(UNCHANGED_KEY)
    } else {
        None
    }
}

/// Returns the beginning of a key on a tonic, by the text after the tonic, and the text with its other words.
fn tonal_start(major: i8, following: &[u8]) -> Option<(Key, &[u8])>
    requires { IsMajor major }
    ensures { MatchOption result (tonal_start major (key_mode_at following.now) ≡ None)
        (λ p. tonal_start major (key_mode_at following.now) ≡ Some (p.0, p.1.now)) }
{
    let (key_mode, text) = key_mode_at(following)?;
    Some((key_on(major, key_mode)?, text))
}

/// Returns the key at the front of a value, and the text with its other words.
#[tactic(auto, unfolding(crate::specs::Key::start_of))]
fn start_of(value: &[u8]) -> Option<(Key, &[u8])>
    ensures { MatchOption result (start_of value.now ≡ None)
        (λ p. start_of value.now ≡ Some (p.0, p.1.now)) }
{
    match tonic_at(value) {
        Some((major, following)) => tonal_start(major, following),
        None => {
            let (first, _) = next_word(value)?;
            Some((toneless_start(first)?, value))
        }
    }
}

/// A key with the accidentals and the properties among the words of a text.
#[tactic(auto, unfolding(crate::specs::Key::complete_key))]
fn complete_key(start: Key, text: &[u8]) -> Option<Key>
    ensures { result ≡ complete_key start (words_of text.now) }
{
    let mut key = start;
    key.shift = shift_in(text)?;
    if let Some(signature) = start.signature {
        key.signature = Some(with_accidentals(signature, text));
    }
    Some(key)
}

/// Returns the key of a value, if it is accepted.
#[tactic(auto, unfolding(crate::specs::Key::key_in))]
fn key_in(value: &[u8]) -> Option<Key>
    ensures { result ≡ key_in value.now }
{
    if value.is_empty() || value == b"none".as_slice() {
        return Some(EMPTY_KEY);
    }
    let (start, text) = start_of(value)?;
    complete_key(start, text)
}

/// Reads the value of K: (ABC 2.1 section 3.1.14), without blanks at its ends: nothing or `none`; a tonic, its mode or
/// `exp` if any, and words; listed accidentals; or properties alone. Anything else is `BadKey`. So are more than seven
/// sharps or flats, and a malformed number of `octave` or `transpose`. The bound and the last two forms are not in ABC
/// 2.1.
pub fn read_key(value: &[u8]) -> Result<Key, FaultCode>
    ensures value { result ≡ key_of value.now }
    ensures exact { IsReading (IsKey value.now) FaultCode.BadKey result }
    ensures range { IfOk result IsInRange }
{
    key_in(value).ok_or(FaultCode::BadKey)
}

/// Returns the key that a field K: sets: the key of its value, or an empty signature if the value is refused.
#[tactic(auto, using(crate::proofs::Keys::no_key_range))]
pub fn key_set_by(value: &[u8]) -> Key
    ensures value { result ≡ key_or_empty (key_of value.now) }
    ensures range { IsInRange result }
{
    match read_key(value) {
        Ok(key) => key,
        Err(_) => EMPTY_KEY,
    }
}
