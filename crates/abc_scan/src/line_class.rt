//! The class of a line.

ghost use Rattle.std.specs.Prelude.{◌≡◌, ◌↔◌, ℕ};
ghost use Rattle.abc_scan.specs.Class.{class_of, class_of_text, first_visible, names_field, is_music_letter, begins_bar};
ghost use Rattle.abc_scan.specs.Class.{field_letter, IsCommentLine, IsFieldLine, IsMusicLine};
ghost use Rattle.abc_scan.specs.Directive.{IsDirectiveLine};
ghost use Rattle.abc_text.specs.Blank.{AreBlanks};
ghost use Rattle.abc_text.specs.LineEnd.{without_return};

use crate::directive::is_directive;
use abc_text::{is_blank, without_return};

/// The class of a line of an ABC text, by its own bytes (ABC 2.1 sections 2.2 and 11).
#[derive(Clone, Copy, Debug, PartialEq, Eq)]
pub enum LineClass {
    /// Nothing but blanks.
    Blank,
    /// A `%` is the first byte that is no blank, and the line is no directive.
    Comment,
    /// An information field, with its letter (or `+`).
    Field(u8),
    /// A directive.
    Directive,
    /// Anything else.
    Music,
}

/// Returns whether a byte may precede the colon of a field.
fn names_field(byte: u8) -> bool
    ensures { result ≡ names_field byte }
{
    byte.is_ascii_alphabetic() || byte == b'+'
}

/// Returns whether a byte is the letter of a note or a rest.
fn is_music_letter(byte: u8) -> bool
    ensures { result ≡ is_music_letter byte }
{
    matches!(byte, b'A'..=b'G' | b'a'..=b'g' | b'x' | b'z')
}

/// Returns whether a text begins as the rest of a repeat bar does, after its first colon.
fn begins_bar(text: &[u8]) -> bool
    ensures { result ≡ begins_bar text.now }
{
    match text {
        [] => false,
        [byte, ..] => *byte == b'|' || *byte == b':',
    }
}

/// The letter of the field that a text is, or none.
fn field_letter(text: &[u8]) -> Option<u8>
    ensures { result ≡ field_letter text.now }
{
    match text {
        [] => None,
        [_] => None,
        [letter, colon, rest @ ..] => {
            let plays = is_music_letter(*letter) && begins_bar(rest);
            if names_field(*letter) && *colon == b':' && !plays {
                Some(*letter)
            } else {
                None
            }
        }
    }
}

/// The first byte of a text that is no blank.
fn first_visible(text: &[u8]) -> Option<u8>
    ensures { result ≡ first_visible text.now }
{
    text.iter().copied().find(|byte| !is_blank(*byte))
}

/// The class of a text that has no carriage return at its end.
fn class_of_text(text: &[u8]) -> LineClass
    ensures { result ≡ class_of_text text.now }
{
    match first_visible(text) {
        None => LineClass::Blank,
        Some(b'%') if is_directive(text) => LineClass::Directive,
        Some(b'%') => LineClass::Comment,
        Some(_) => match field_letter(text) {
            Some(letter) => LineClass::Field(letter),
            None => LineClass::Music,
        },
    }
}

/// The class of a line, whose carriage return at the end does not count.
pub fn class_of(line: &[u8]) -> LineClass
    ensures value { result ≡ class_of line.now }
    ensures blank { (result ≡ LineClass.Blank) ↔ AreBlanks (without_return line.now) }
    ensures comment { (result ≡ LineClass.Comment) ↔ IsCommentLine (without_return line.now) }
    ensures directive { (result ≡ LineClass.Directive) ↔ IsDirectiveLine (without_return line.now) }
    ensures field { (letter : ℕ) → (result ≡ LineClass.Field letter) ↔ IsFieldLine (without_return line.now) letter }
    ensures music { (result ≡ LineClass.Music) ↔ IsMusicLine (without_return line.now) }
{
    class_of_text(without_return(line))
}
