//! Laws of the accidentals of a bar. The function has no body: its contract is the law.

ghost use Rattle.abc_bars_voice.specs.Reaching.{AccidentalsReach, SameWhereHeardAlike};

/// A note hears the last accidental before it in its bar that reaches it: of its letter in any octave, of its letter in its
/// octave, or none. The stored accidentals are equal if every note hears the same of them, whatever their order was (ABC 2.1
/// section 11.3).
pub fn reach_of_accidentals()
    ensures last { AccidentalsReach }
    ensures alike { SameWhereHeardAlike }
{}
