//! Dynamics.

ghost use Rattle.std.specs.Prelude.{◌≡◌, ◌≤◌, ◌<◌};
ghost use Rattle.abc_scan.specs.Dynamic.{dynamic_of, velocity_of};

/// The loudness of the notes after it (ABC 2.1 section 4.14).
#[derive(Clone, Copy, PartialEq, Eq)]
pub enum Dynamic {
    Ppp,
    Pp,
    P,
    Mp,
    Mf,
    F,
    Ff,
    Fff,
}

impl Dynamic {
    /// The MIDI velocity of notes with this dynamic, 1 to 127. Not in ABC 2.1.
    pub fn velocity(self) -> u8
        ensures value { result ≡ velocity_of self }
        ensures some { 0 < result }
        ensures within { result ≤ 127 }
    {
        match self {
            Dynamic::Ppp => 30,
            Dynamic::Pp => 45,
            Dynamic::P => 60,
            Dynamic::Mp => 75,
            Dynamic::Mf => 90,
            Dynamic::F => 105,
            Dynamic::Ff => 120,
            Dynamic::Fff => 127,
        }
    }
}

/// The dynamic that a text spells.
#[tactic(auto, unfolding(crate::specs::Dynamic::dynamic_of))]
pub(crate) fn dynamic_of(text: &[u8]) -> Option<Dynamic>
    ensures value { result ≡ dynamic_of text.now }
{
    match text {
        b"!ppp!" => Some(Dynamic::Ppp),
        b"!pp!" => Some(Dynamic::Pp),
        b"!p!" => Some(Dynamic::P),
        b"!mp!" => Some(Dynamic::Mp),
        b"!mf!" => Some(Dynamic::Mf),
        b"!f!" => Some(Dynamic::F),
        b"!ff!" => Some(Dynamic::Ff),
        b"!fff!" => Some(Dynamic::Fff),
        _ => None,
    }
}
