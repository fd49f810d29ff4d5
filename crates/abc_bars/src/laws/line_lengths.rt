//! The laws of the lengths of the notes, rests and chords of lines.

ghost use Rattle.abc_bars.specs.LookBack.LineFaults.{AreLengthFaultsOfLines};
ghost use Rattle.abc_bars.specs.LookBack.LineLengths.{ChordsOfLinesLast, NotesOfLinesLast, RestsOfLinesLast};

/// Each note, rest and chord in a cell of a line meets the conditions of `lengths_at_places`, and so lasts as that law says.
/// The cell may be at any place of a tune, after any file header or none (ABC 2.1 section 4.3).
pub fn lengths_in_lines()
    ensures notes { NotesOfLinesLast }
    ensures rests { RestsOfLinesLast }
    ensures chords { ChordsOfLinesLast }
{}

/// In each cell of a line, at any place of a tune, `BadLength` is at exactly the notes and rests for which the rules have no
/// length, of a chord at those among its first sixteen notes, and at the rests of bars as in any cell. No other condition has to
/// hold at the place.
pub fn length_faults_in_lines()
    ensures { AreLengthFaultsOfLines }
{}
