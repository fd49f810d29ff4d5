//! The spellings of decorations.

ghost use Rattle.std.specs.Prelude.{◌≡◌};
ghost use Rattle.abc_marks_readers.specs.Decoration.{decoration_of, letter_of, ornament_of, stress_of, hold_of};

use abc_marks::{Accent, Ornament, Shortening};

/// A decoration that is heard (ABC 2.1 section 4.14).
#[derive(Clone, Copy, PartialEq, Eq)]
pub enum Decoration {
    Fermata,
    Ornament(Ornament),
    Arpeggio,
    Accent(Accent),
    Shortening(Shortening),
}

/// The decorations of one letter.
#[tactic(auto, unfolding(crate::specs::Decoration::letter_of))]
fn letter_of(text: &[u8]) -> Option<Decoration>
    ensures { result ≡ letter_of text.now }
{
    match text {
        b"H" => Some(Decoration::Fermata),
        b"T" => Some(Decoration::Ornament(Ornament::Trill)),
        b"M" => Some(Decoration::Ornament(Ornament::LowerMordent)),
        b"P" => Some(Decoration::Ornament(Ornament::UpperMordent)),
        b"~" => Some(Decoration::Ornament(Ornament::Roll)),
        b"L" => Some(Decoration::Accent(Accent::Accent)),
        b"." => Some(Decoration::Shortening(Shortening::Staccato)),
        _ => None,
    }
}

/// The ornaments between exclamation marks.
#[tactic(auto, unfolding(crate::specs::Decoration::ornament_of))]
fn ornament_of(text: &[u8]) -> Option<Decoration>
    ensures { result ≡ ornament_of text.now }
{
    if text == b"!trill!".as_slice() {
        Some(Decoration::Ornament(Ornament::Trill))
    } else if text == b"!mordent!".as_slice() || text == b"!lowermordent!".as_slice() {
        Some(Decoration::Ornament(Ornament::LowerMordent))
    } else if text == b"!uppermordent!".as_slice() || text == b"!pralltriller!".as_slice() {
        Some(Decoration::Ornament(Ornament::UpperMordent))
    } else if text == b"!turn!".as_slice() {
        Some(Decoration::Ornament(Ornament::Turn))
    } else if text == b"!invertedturn!".as_slice() {
        Some(Decoration::Ornament(Ornament::InvertedTurn))
    } else if text == b"!roll!".as_slice() {
        Some(Decoration::Ornament(Ornament::Roll))
    } else if text == b"!slide!".as_slice() {
        Some(Decoration::Ornament(Ornament::Slide))
    } else {
        None
    }
}

/// The accents and shortenings between exclamation marks.
#[tactic(auto, unfolding(crate::specs::Decoration::stress_of))]
fn stress_of(text: &[u8]) -> Option<Decoration>
    ensures { result ≡ stress_of text.now }
{
    if text == b"!accent!".as_slice()
        || text == b"!>!".as_slice()
        || text == b"!emphasis!".as_slice()
    {
        Some(Decoration::Accent(Accent::Accent))
    } else if text == b"!marcato!".as_slice()
        || text == b"!^!".as_slice()
        || text == b"!sfz!".as_slice()
    {
        Some(Decoration::Accent(Accent::Marcato))
    } else if text == b"!staccato!".as_slice() {
        Some(Decoration::Shortening(Shortening::Staccato))
    } else if text == b"!wedge!".as_slice() {
        Some(Decoration::Shortening(Shortening::Wedge))
    } else {
        None
    }
}

/// The other decorations between exclamation marks.
#[tactic(auto, unfolding(crate::specs::Decoration::hold_of))]
fn hold_of(text: &[u8]) -> Option<Decoration>
    ensures { result ≡ hold_of text.now }
{
    if text == b"!fermata!".as_slice() || text == b"!invertedfermata!".as_slice() {
        Some(Decoration::Fermata)
    } else if text == b"!arpeggio!".as_slice() {
        Some(Decoration::Arpeggio)
    } else {
        None
    }
}

/// Returns the decoration that a text spells, if it is heard.
pub fn decoration_of(text: &[u8]) -> Option<Decoration>
    ensures value { result ≡ decoration_of text.now }
{
    if let Some(found) = letter_of(text) {
        return Some(found);
    }
    if let Some(found) = ornament_of(text) {
        return Some(found);
    }
    if let Some(found) = stress_of(text) {
        return Some(found);
    }
    hold_of(text)
}
