//! The tempo of a header.

ghost use Rattle.std.specs.Prelude.{◌≡◌, IfSome};
ghost use Rattle.abc_fields.specs.Tempo.{tempo_of, IsInRange};
ghost use Rattle.abc_time.specs.Tempo.{FitsInTempoEvent};
ghost use Rattle.abc_bars_voice.specs.Tempo.{micros_by};

use crate::in_range::{FieldValue, InRange};
use crate::unit_length::UnitLength;
use abc_fields::{FaultCode, Tempo, read_tempo};
use abc_time::quarter_micros;

/// A tempo of a Q: (ABC 2.1 section 3.1.8). Contracts see the tempo.
pub type TuneTempo = InRange<Tempo>;

impl FieldValue for Tempo {
    ghost value_of = { tempo_of };

    ghost IsInRange = { IsInRange };

    fn read_value(value: &[u8]) -> Result<Tempo, FaultCode> {
        read_tempo(value)
    }
}

impl InRange<Tempo> {
    /// The microseconds of a quarter note, if a tempo is set and they are in range; a number alone counts units.
    pub fn micros(self, unit: UnitLength) -> Option<u32>
        ensures value { result ≡ micros_by unit self }
        ensures range { IfSome result FitsInTempoEvent }
    {
        match self.get() {
            Tempo::Unset => None,
            Tempo::Units(n) => quarter_micros(unit.get(), n),
            Tempo::Beat { beat, n } => quarter_micros(beat, n),
        }
    }
}
