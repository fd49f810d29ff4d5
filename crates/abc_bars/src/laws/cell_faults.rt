//! Laws of the faults of a cell of music or a field line of a body, token by token.

ghost use Rattle.abc_bars.specs.LookBack.CellFaults.{AreFaultsOfCells, HasBigChord, HasFieldFaults, HasLengthFaults};
ghost use Rattle.abc_bars.specs.LookBack.CellFaults.{HasSpellingFaults, is_bad_length_code, is_big_chord, is_of_field};
ghost use Rattle.abc_bars.specs.LookBack.CellFaults.{is_of_spelling};

/// The faults of fields in a body are at exactly these fields, in order:
///
/// - those whose value does not fit its grammar;
/// - those whose tempo is out of range;
/// - those whose voice would be the sixteenth.
pub fn field_faults_of_cells()
    ensures { AreFaultsOfCells is_of_field HasFieldFaults }
{}

/// Each of these faults is at exactly these places, in order:
///
/// - `BadByte`: the bytes that begin no token, and in a chord those that begin no part of one;
/// - `Unclosed`: the tokens without their end;
/// - `BadEnding`: the endings with a number out of range;
/// - `BadProgram`: the programs above 127.
pub fn spelling_faults_of_cells()
    ensures { AreFaultsOfCells is_of_spelling HasSpellingFaults }
{}

/// Each of these faults is at exactly these places, in order:
///
/// - `BadLength`: the notes and rests for which the rules have no length, of a chord those among its first sixteen notes, and
///   the rests of no bars or too many;
/// - `BigChord`: the seventeenth note of each chord that has one.
pub fn length_faults_of_cells()
    ensures lengths { AreFaultsOfCells is_bad_length_code HasLengthFaults }
    ensures chords { AreFaultsOfCells is_big_chord HasBigChord }
{}
