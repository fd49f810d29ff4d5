//! The accidentals of notes.

ghost use Rattle.std.specs.Prelude.{◌≡◌, ◌↔◌, Some};
ghost use Rattle.abc_text.specs.declared.accidental.Accidental.{Accidental};
ghost use Rattle.abc_text.specs.Accidental.{spelling, alteration, accidental_of};

/// A sign in front of a note (ABC 2.1 section 4.2).
#[derive(Clone, Copy, PartialEq, Eq)]
pub enum Accidental {
    DoubleFlat,
    Flat,
    Natural,
    Sharp,
    DoubleSharp,
}

impl Accidental {
    /// Returns the alteration of a note in semitones, from -2 to 2.
    pub fn alteration(self) -> i8
        ensures { result ≡ alteration self }
    {
        match self {
            Accidental::DoubleFlat => -2,
            Accidental::Flat => -1,
            Accidental::Natural => 0,
            Accidental::Sharp => 1,
            Accidental::DoubleSharp => 2,
        }
    }
}

/// Returns the accidental that a whole text spells.
#[tactic(auto, unfolding(crate::specs::Accidental::accidental_of))]
pub fn accidental_of(text: &[u8]) -> Option<Accidental>
    ensures value { result ≡ accidental_of text.now }
    ensures spelled { (accidental : Accidental) → (result ≡ Some accidental) ↔ (text.now ≡ spelling accidental) }
{
    match text {
        b"__" => Some(Accidental::DoubleFlat),
        b"_" => Some(Accidental::Flat),
        b"=" => Some(Accidental::Natural),
        b"^" => Some(Accidental::Sharp),
        b"^^" => Some(Accidental::DoubleSharp),
        _ => None,
    }
}
