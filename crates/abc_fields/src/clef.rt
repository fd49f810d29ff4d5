//! Clefs: the mark of an octave, and their names.

ghost use Rattle.std.specs.Prelude.{◌≡◌};
ghost use Rattle.abc_fields.specs.Clef.{mark_of, clef_of, without_line, names_clef, is_clef_name};

/// Returns the octave, in semitones, of the mark at the end of a clef (ABC 2.1 section 4.6).
#[tactic(auto, unfolding(crate::specs::Clef::mark_of))]
pub(crate) fn mark_of(text: &[u8]) -> Option<i64>
    ensures { result ≡ mark_of text.now }
{
    if text.ends_with(b"+8") {
        Some(12)
    } else if text.ends_with(b"-8") {
        Some(-12)
    } else {
        None
    }
}

/// Returns the octave of a clef, in semitones: 0 without a mark.
pub(crate) fn clef_of(text: &[u8]) -> i64
    ensures { result ≡ clef_of text.now }
{
    mark_of(text).unwrap_or(0)
}

/// Returns a word without the line of a clef, one digit 1 to 5 at its end.
#[tactic(auto, unfolding(crate::specs::Clef::without_line))]
fn without_line(word: &[u8]) -> &[u8]
    ensures { result.now ≡ without_line word.now }
{
    match word {
        [name @ .., b'1'..=b'5'] => name,
        _ => word,
    }
}

/// Returns whether a text is the name of a clef.
#[tactic(auto, unfolding(crate::specs::Clef::names_clef))]
fn names_clef(name: &[u8]) -> bool
    ensures { result ≡ names_clef name.now }
{
    name == b"treble".as_slice()
        || name == b"bass".as_slice()
        || name == b"alto".as_slice()
        || name == b"tenor".as_slice()
        || name == b"perc".as_slice()
}

/// Returns whether a word is the name of a clef, perhaps with the line of its staff.
pub(crate) fn is_clef_name(word: &[u8]) -> bool
    ensures { result ≡ is_clef_name word.now }
{
    names_clef(without_line(word))
}
