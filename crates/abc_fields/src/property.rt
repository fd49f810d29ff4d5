//! Properties, as `clef=bass octave=-1`, and clefs with a mark, as `treble-8`.

ghost use Rattle.std.specs.Prelude.{◌≡◌};
ghost use Rattle.abc_fields.specs.Property.{property_of, signed_number, unquote};

use crate::clef::{clef_of, mark_of};
use abc_text::number_of;

/// The property that a word of a field sets.
#[derive(Clone, Copy)]
pub(crate) enum Property {
    /// An octave up or down in semitones, or 0.
    Clef(i64),
    /// In octaves.
    Octave(i64),
    /// In semitones.
    Transpose(i64),
    /// A word without effect.
    Other,
}

/// A text without the quotes at its ends.
#[tactic(auto, unfolding(crate::specs::Property::unquote))]
fn unquote(text: &[u8]) -> &[u8]
    ensures { result.now ≡ unquote text.now }
{
    match text {
        [b'"', value @ .., b'"'] => value,
        _ => text,
    }
}

/// The number that a sign and one to nine digits spell.
#[tactic(auto, unfolding(crate::specs::Property::signed_number, abc_text::specs::Number::number_of))]
fn signed_number(text: &[u8]) -> Option<i64>
    ensures { result ≡ signed_number text.now }
{
    match text {
        [b'-', digits @ ..] => Some(-i64::from(number_of(digits)?)),
        [b'+', digits @ ..] => Some(i64::from(number_of(digits)?)),
        digits => Some(i64::from(number_of(digits)?)),
    }
}

/// Returns the property that a word sets, or none if its number is refused.
#[tactic(auto, unfolding(crate::specs::Property::property_of))]
pub(crate) fn property_of(word: &[u8]) -> Option<Property>
    ensures value { result ≡ property_of word.now }
{
    if let Some(clef) = word.strip_prefix(b"clef=") {
        Some(Property::Clef(clef_of(unquote(clef))))
    } else if let Some(octave) = word.strip_prefix(b"octave=") {
        Some(Property::Octave(signed_number(unquote(octave))?))
    } else if let Some(transpose) = word.strip_prefix(b"transpose=") {
        Some(Property::Transpose(signed_number(unquote(transpose))?))
    } else if let Some(mark) = mark_of(word) {
        Some(Property::Clef(mark))
    } else {
        Some(Property::Other)
    }
}
