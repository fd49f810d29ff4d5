//! The letters of notes.

ghost use Rattle.std.specs.Prelude.{◌≡◌, ◌↔◌, Some};
ghost use Rattle.abc_text.specs.declared.letter.Letter.{Letter};
ghost use Rattle.abc_text.specs.Letter.{IsLetter, letter_of, capital, semitones};

/// The letter of a note, without its octave (ABC 2.1 section 4.1).
#[derive(Clone, Copy, PartialEq, Eq)]
pub enum Letter {
    C,
    D,
    E,
    F,
    G,
    A,
    B,
}

impl Letter {
    /// The capital letter.
    pub fn capital(self) -> u8
        ensures { result ≡ capital self }
    {
        match self {
            Letter::C => b'C',
            Letter::D => b'D',
            Letter::E => b'E',
            Letter::F => b'F',
            Letter::G => b'G',
            Letter::A => b'A',
            Letter::B => b'B',
        }
    }

    /// Returns the number of semitones from the C below to the letter.
    pub fn semitones(self) -> u8
        ensures { result ≡ semitones self }
    {
        match self {
            Letter::C => 0,
            Letter::D => 2,
            Letter::E => 4,
            Letter::F => 5,
            Letter::G => 7,
            Letter::A => 9,
            Letter::B => 11,
        }
    }
}

/// Returns the letter that a byte spells, capital or small.
#[tactic(auto, unfolding(crate::specs::Letter::letter_of))]
pub fn letter_of(byte: u8) -> Option<Letter>
    ensures value { result ≡ letter_of byte }
    ensures spelled { (letter : Letter) → (result ≡ Some letter) ↔ IsLetter byte letter }
{
    match byte {
        b'C' | b'c' => Some(Letter::C),
        b'D' | b'd' => Some(Letter::D),
        b'E' | b'e' => Some(Letter::E),
        b'F' | b'f' => Some(Letter::F),
        b'G' | b'g' => Some(Letter::G),
        b'A' | b'a' => Some(Letter::A),
        b'B' | b'b' => Some(Letter::B),
        _ => None,
    }
}
