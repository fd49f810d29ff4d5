//! Decorations of notes and chords.

ghost use Rattle.std.specs.Prelude.{◌≡◌};
ghost use Rattle.abc_marks.specs.Decoration.{added_velocity, shortening_divisor};

/// An ornament of a note (ABC 2.1 section 4.14).
#[derive(Clone, Copy, PartialEq, Eq)]
pub enum Ornament {
    Trill,
    /// The mordent, with the note below.
    LowerMordent,
    /// The mordent with the note above, or short trill.
    UpperMordent,
    Turn,
    InvertedTurn,
    /// The roll of Irish music.
    Roll,
    Slide,
}

/// An accent (ABC 2.1 section 4.14).
#[derive(Clone, Copy, PartialEq, Eq)]
pub enum Accent {
    Accent,
    Marcato,
}

impl Accent {
    /// Returns what the accent adds to the velocity of MIDI. Not in ABC 2.1.
    pub fn added_velocity(self) -> u8
        ensures { result ≡ added_velocity self }
    {
        match self {
            Accent::Accent => 20,
            Accent::Marcato => 30,
        }
    }
}

/// A decoration that shortens the sound of a note (ABC 2.1 section 4.14).
#[derive(Clone, Copy, PartialEq, Eq)]
pub enum Shortening {
    Staccato,
    Wedge,
}

impl Shortening {
    /// Returns the number by which the length of the sound is divided. Not in ABC 2.1.
    pub fn divisor(self) -> u8
        ensures { result ≡ shortening_divisor self }
    {
        match self {
            Shortening::Staccato => 2,
            Shortening::Wedge => 4,
        }
    }
}
