//! The law of the tuplets at the places of a voice.

ghost use Rattle.abc_bars.specs.LookBack.TupletPlaces.{TupletsByMarks};

/// A place is in the tuplet of the last accepted mark (p:q:r before it in its voice, until r time tokens have come between.
/// Before any accepted mark it is in none. Without a q in the mark, p and the meter at the mark determine q. Without an r, r is
/// p (ABC 2.1 section 4.13).
pub fn tuplets_at_places()
    ensures { TupletsByMarks }
{}
