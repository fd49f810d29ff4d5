//! The law of the lengths of notes, rests and chords at the places of a tune.

ghost use Rattle.abc_bars.specs.LookBack.Lengths.{BarRestsLastThere, ChordsLastThere, NotesLastThere, RestsLastThere};

/// Each note, rest, rest of bars, and chord with a note gives one item, after those of the tokens before it in its cell.
/// `lengths_of_notes`, `notes_of_chords` and `lengths_of_bar_rests` say its length. They take the unit, tuplet and meter that
/// looking back finds for its voice, and the broken rhythm of its cell (ABC 2.1 section 4.3).
pub fn lengths_at_places()
    ensures notes { NotesLastThere }
    ensures rests { RestsLastThere }
    ensures chords { ChordsLastThere }
    ensures bar_rests { BarRestsLastThere }
{}
