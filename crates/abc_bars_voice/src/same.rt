//! Equality that is exact.

ghost use Rattle.std.specs.Prelude.{◌≡◌, ◌↔◌, IsTrue};

use crate::accidentals::{Accidentals, LetterAccidentals};
use crate::tied_note::TiedNote;
use crate::tune_meter::TuneMeter;
use crate::tune_tempo::TuneTempo;
use crate::unit_length::UnitLength;
use crate::voice_shift::VoiceShift;
use crate::voice_state::VoiceState;
use abc_fields::{Shift, Signature};
use abc_scan::Dynamic;
use abc_text::ShortSequence;

/// Types with an exact equality: two values are equal exactly if contracts see the same value.
pub trait Same {
    /// Whether both are equal. It allocates nothing.
    fn same(&self, other: &Self) -> bool
        ensures { IsTrue result ↔ (self.now ≡ other.now) };
}

impl<T: Same> Same for Option<T> {
    fn same(&self, other: &Option<T>) -> bool {
        match (self, other) {
            (Some(value), Some(with)) => value.same(with),
            (None, None) => true,
            (Some(_), None) | (None, Some(_)) => false,
        }
    }
}

impl Same for TuneMeter {
    fn same(&self, other: &TuneMeter) -> bool {
        self.get() == other.get()
    }
}

impl Same for UnitLength {
    fn same(&self, other: &UnitLength) -> bool {
        self.get() == other.get()
    }
}

impl Same for TuneTempo {
    fn same(&self, other: &TuneTempo) -> bool {
        self.get() == other.get()
    }
}

impl Same for Signature {
    fn same(&self, other: &Signature) -> bool {
        *self == *other
    }
}

impl Same for Shift {
    fn same(&self, other: &Shift) -> bool {
        *self == *other
    }
}

impl Same for VoiceShift {
    fn same(&self, other: &VoiceShift) -> bool {
        self.clef == other.clef && self.octave == other.octave && self.transpose == other.transpose
    }
}

impl Same for LetterAccidentals {
    fn same(&self, other: &LetterAccidentals) -> bool {
        *self == *other
    }
}

impl Same for Accidentals {
    fn same(&self, other: &Accidentals) -> bool {
        match (self, other) {
            (Accidentals::Own, Accidentals::Own) => true,
            (Accidentals::InOctaves(octaves), Accidentals::InOctaves(with)) => octaves.same(with),
            (Accidentals::OnLetters(letters), Accidentals::OnLetters(with)) => letters.same(with),
            _ => false,
        }
    }
}

impl Same for Dynamic {
    fn same(&self, other: &Dynamic) -> bool {
        *self == *other
    }
}

impl Same for ShortSequence<TiedNote> {
    fn same(&self, other: &ShortSequence<TiedNote>) -> bool {
        *self == *other
    }
}

impl Same for VoiceState {
    fn same(&self, other: &VoiceState) -> bool {
        self.meter.same(&other.meter)
            && self.unit.same(&other.unit)
            && self.signature.same(&other.signature)
            && self.shift.same(&other.shift)
            && self.accidentals.same(&other.accidentals)
            && self.tuplet.same(&other.tuplet)
            && self.tied.same(&other.tied)
            && self.dynamic.same(&other.dynamic)
    }
}
