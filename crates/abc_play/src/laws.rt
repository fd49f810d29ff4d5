//! Laws of the plays of a text. Each function has no body: its contract is the law.

ghost use Rattle.abc_play.specs.Laws.{PlaysKeys, PlaysText};

/// Each entry's bytes are those of a token of that line of the present text, of its kind, or of the part of a chord that gives
/// its tone.
pub fn entries_are_in_the_text()
    ensures { PlaysText }
{}

/// That token is one of the tune that has the number's file. A tone has the key that looking back over the tune gives at the
/// place of the token (`abc_bars::laws`), or MIDI has no key for it there either.
pub fn keys_are_looked_back()
    ensures { PlaysKeys }
{}
