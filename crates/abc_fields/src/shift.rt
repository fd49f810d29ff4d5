//! Shifts of the notes of a voice.

ghost use Rattle.std.specs.Prelude.{◌≡◌, ◌↔◌, Some, IfSome};
ghost use Rattle.abc_fields.specs.declared.shift.Shift.{Shift};
ghost use Rattle.abc_text.specs.Word.{words_of};
ghost use Rattle.abc_fields.specs.Shift.{IsSmallShift, shift_of, with_property};
ghost use Rattle.abc_fields.specs.Spelling.Shift.{IsShift};

use crate::property::{Property, property_of};
use abc_text::next_word;

/// The pitch shift that the properties of a field K: or V: set. Each part is optional (ABC 2.1 sections 4.6 and 7.1).
#[derive(Clone, Copy, PartialEq, Eq)]
pub struct Shift {
    /// In semitones: 12 or -12 for a clef that is marked `+8` or `-8`, 0 for another.
    pub clef: Option<i64>,
    /// In octaves.
    pub octave: Option<i64>,
    /// In semitones.
    pub transpose: Option<i64>,
}

/// The shift without any part.
pub(crate) const NO_SHIFT: Shift = Shift {
    clef: None,
    octave: None,
    transpose: None,
};

/// Returns a shift after one more property: the last one of each part counts.
fn with_property(shift: Shift, property: Property) -> Shift
    ensures { result ≡ with_property shift property }
{
    match property {
        Property::Clef(n) => Shift {
            clef: Some(n),
            ..shift
        },
        Property::Octave(n) => Shift {
            octave: Some(n),
            ..shift
        },
        Property::Transpose(n) => Shift {
            transpose: Some(n),
            ..shift
        },
        Property::Other => shift,
    }
}

/// Returns the shift that the words of a text set, or none if a number is refused.
#[tactic(auto, unfolding(crate::specs::Shift::shift_of))]
pub(crate) fn shift_in(text: &[u8]) -> Option<Shift>
    ensures value { result ≡ shift_of (words_of text.now) }
    ensures small { IfSome result IsSmallShift }
    ensures grammar { (shift : Shift) →
        (shift_of (words_of text.now) ≡ Some shift) ↔ IsShift (words_of text.now) shift }
{
    let mut shift = NO_SHIFT;
    let mut rest = text;
    while let Some((word, following)) = next_word(rest) {
        shift = with_property(shift, property_of(word)?);
        rest = following;
    }
    Some(shift)
}
