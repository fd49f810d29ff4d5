//! Laws of the faults of music at the places of a tune.

ghost use Rattle.abc_bars.specs.LookBack.Faults.{BadMarksDoNotAct, EmptyChordsGiveNone, EmptyChordsLeaveAll, FaultsLookedBack};

/// In a cell of music, whatever is before it, each of these faults is at exactly these tokens, in order:
///
/// - `KeyRange`: its notes, and the first sixteen notes of its chords, whose pitch has no key in MIDI;
/// - `EmptyChord`: its chords without a note;
/// - `FreeBarRest`: its rests of bars in free meter;
/// - `BadTuplet`: its tuplet marks that are not accepted;
/// - `NestedTuplet`: its accepted tuplet marks at which another tuplet is still open.
pub fn faults_at_places()
    ensures { FaultsLookedBack }
{}

/// A chord without a note gives no item, wherever it is, and does not change the state of any voice (ABC 2.1 section 4.17).
pub fn empty_chords()
    ensures none { EmptyChordsGiveNone }
    ensures all { EmptyChordsLeaveAll }
{}

/// In a cell of music `BadBroken` is at exactly the marks of broken rhythm that do not act, in order.
pub fn bad_marks_of_cells()
    ensures { BadMarksDoNotAct }
{}
