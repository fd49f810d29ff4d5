//! What the marks before a note, chord or rest say of it.

ghost use Rattle.std.specs.Prelude.{◌≡◌, ◌≤◌, None, min, IfSome};
ghost use Rattle.std.specs.List.{list_any};
ghost use Rattle.abc_marks.specs.Mark.{IsMark};
ghost use Rattle.std.specs.Prelude.{All};
ghost use Rattle.abc_perform_item.specs.Decorations.{is_fermata, is_spread, is_shortened, has_fermata, has_spread, divisor_of};
ghost use Rattle.abc_perform_item.specs.Decorations.{added_in, added_by, ornament_in, later_ornament, ornament_after, IsOrnament};

use abc_bars_items::HIGHEST_VELOCITY;
use abc_marks::{Mark, MarkKind, Ornament, Shortening};

/// An ornament of a note, with the keys of its neighbours before any transposition.
#[derive(Clone, Copy)]
pub struct OrnamentMark {
    pub ornament: Ornament,
    pub up: Option<u8>,
    pub down: Option<u8>,
}

/// Whether a mark is a fermata.
fn is_fermata(mark: &Mark) -> bool
    ensures { result ≡ is_fermata mark.now }
{
    matches!(mark.kind, MarkKind::Fermata)
}

/// Whether a fermata is among marks.
pub(crate) fn has_fermata(marks: &[Mark]) -> bool
    ensures { result ≡ has_fermata marks.now }
{
    marks.iter().any(|mark| is_fermata(mark))
}

/// Whether a mark spreads a chord.
fn is_spread(mark: &Mark) -> bool
    ensures { result ≡ is_spread mark.now }
{
    matches!(mark.kind, MarkKind::Arpeggio)
}

/// Whether a mark that spreads a chord is among marks.
pub(crate) fn has_spread(marks: &[Mark]) -> bool
    ensures { result ≡ has_spread marks.now }
{
    marks.iter().any(|mark| is_spread(mark))
}

/// Whether a mark shortens the sound of a note so.
fn is_shortened(shortening: Shortening, mark: &Mark) -> bool
    ensures { result ≡ is_shortened shortening mark.now }
{
    match mark.kind {
        MarkKind::Shortening(found) => found.divisor() == shortening.divisor(),
        _ => false,
    }
}

/// Whether a mark that shortens the sound of a note so is among marks.
fn has_shortened(shortening: Shortening, marks: &[Mark]) -> bool
    ensures { result ≡ list_any (is_shortened shortening) marks.now }
{
    marks.iter().any(|mark| is_shortened(shortening, mark))
}

/// Returns the number by which the length of the sound is divided: a wedge makes it shorter than a staccato.
pub(crate) fn divisor_of(marks: &[Mark]) -> u8
    ensures value { result ≡ divisor_of marks.now }
    ensures some { 1 ≤ result }
{
    if has_shortened(Shortening::Wedge, marks) {
        Shortening::Wedge.divisor()
    } else if has_shortened(Shortening::Staccato, marks) {
        Shortening::Staccato.divisor()
    } else {
        1
    }
}

/// Returns what a mark adds to the velocity.
fn added_in(mark: &Mark) -> u8
    ensures { result ≡ added_in mark.now }
{
    match mark.kind {
        MarkKind::Accent(accent) => accent.added_velocity(),
        _ => 0,
    }
}

/// Returns what marks add to the velocity, at most the highest velocity.
pub(crate) fn added_by(marks: &[Mark]) -> u8
    ensures value { result ≡ added_by marks.now }
    ensures most { result ≤ HIGHEST_VELOCITY }
{
    let mut added: u8 = 0;
    for mark in marks {
        added = added.saturating_add(added_in(mark)).min(HIGHEST_VELOCITY);
    }
    added
}

/// Returns the ornament that a mark is.
fn ornament_in(mark: &Mark) -> Option<OrnamentMark>
    requires { IsMark mark.now }
    ensures value { result ≡ ornament_in mark.now }
    ensures range { IfSome result IsOrnament }
{
    match mark.kind {
        MarkKind::Ornament { ornament, up, down } => Some(OrnamentMark { ornament, up, down }),
        _ => None,
    }
}

/// Returns the later of two ornaments.
fn later_ornament(known: Option<OrnamentMark>, found: Option<OrnamentMark>) -> Option<OrnamentMark>
    requires known { IfSome known IsOrnament }
    requires found { IfSome found IsOrnament }
    ensures value { result ≡ later_ornament known found }
    ensures range { IfSome result IsOrnament }
{
    match found {
        Some(ornament) => Some(ornament),
        None => known,
    }
}

/// Returns the last ornament among marks.
pub(crate) fn ornament_of(marks: &[Mark]) -> Option<OrnamentMark>
    requires { All IsMark marks.now }
    ensures value { result ≡ ornament_after None marks.now }
    ensures range { IfSome result IsOrnament }
{
    let mut last = None;
    for mark in marks {
        last = later_ornament(last, ornament_in(mark));
    }
    last
}
