//! The shift of a voice's notes.

ghost use Rattle.std.specs.Prelude.{◌≡◌};
ghost use Rattle.abc_bars_voice.specs.VoiceShift.{with_properties};

use abc_fields::Shift;

/// The shift of a voice's notes (ABC 2.1 sections 4.6 and 7.1); each part is 0 if no field sets it.
#[derive(Clone, Copy)]
pub struct VoiceShift {
    /// In semitones.
    pub clef: i64,
    /// In octaves.
    pub octave: i64,
    /// In semitones.
    pub transpose: i64,
}

impl VoiceShift {
    /// The shift after properties: each part of theirs replaces the one before.
    pub fn with_properties(self, said: Shift) -> VoiceShift
        ensures { result ≡ with_properties self said }
    {
        VoiceShift {
            clef: said.clef.unwrap_or(self.clef),
            octave: said.octave.unwrap_or(self.octave),
            transpose: said.transpose.unwrap_or(self.transpose),
        }
    }
}
