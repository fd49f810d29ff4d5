//! The current unit note length.

ghost use Rattle.std.specs.Prelude.{◌≡◌, ◌≤◌, []};
ghost use Rattle.abc_fields.specs.Unit.{unit_of};
ghost use Rattle.abc_time.specs.Grains.{grains_of_the_longest_length};
ghost use Rattle.abc_time.specs.Length.{IsLength};
ghost use Rattle.abc_time.specs.Ratio.{IsRatio};
ghost use Rattle.abc_bars_voice.specs.UnitLength.{unit_by, unit_grains, IsUnitPart};

use crate::tune_meter::TuneMeter;
use abc_fields::{FaultCode, Meter, read_unit};
use abc_time::{Grains, Ratio, WHOLE_NOTE};
use std::marker::Model;

/// The most units of a whole note.
const MOST_PARTS: u16 = 512;

/// The shortest unit in grains. Each unit is a multiple of it: to divide 512 is cheaper than to divide a whole
/// note's grains, which take 64 bits.
const SHORTEST_UNIT: u64 = WHOLE_NOTE.0 / 512;

/// A unit note length, by the number of units in a whole note (ABC 2.1 section 3.1.7). Contracts see the part of a whole note.
#[derive(Clone, Copy)]
pub struct UnitLength {
    parts: u16,
}

impl Model for UnitLength {
    ghost use Rattle.abc_fields.specs.Unit.{part_as_unit};
    ghost use Rattle.abc_time.specs.declared.ratio.Ratio.{Ratio};
    ghost use Rattle.abc_bars_voice.specs.UnitLength.{IsUnitPart};

    ghost Value = { Ratio };

    ghost view = { λ u. part_as_unit u.parts };

    ghost invariant = { λ u. IsUnitPart (part_as_unit u.parts) };

    ghost inverse = { λ part. record { parts = part.den } };
}

impl UnitLength {
    /// The unit of a value of L:.
    pub fn read(value: &[u8]) -> Result<UnitLength, FaultCode>
        ensures { result ≡ unit_of value.now }
    {
        let part = read_unit(value)?;
        Ok(UnitLength {
            parts: part.den as u16,
        })
    }

    /// The unit in a meter if no L: sets one (ABC 2.1 section 3.1.7): a sixteenth below 3/4, otherwise,
    /// and in free meter, an eighth.
    pub fn by(meter: TuneMeter) -> UnitLength
        ensures { result ≡ unit_by meter }
    {
        let parts = match meter.get() {
            Meter::Of { num, den } if 4 * u32::from(num) < 3 * u32::from(den) => 16,
            Meter::Of { .. } | Meter::Free => 8,
        };
        UnitLength { parts }
    }

    /// The part of a whole note.
    pub fn get(self) -> Ratio
        ensures value { result ≡ self }
        ensures range { IsRatio result }
        ensures part { IsUnitPart result }
    {
        Ratio {
            num: 1,
            den: u32::from(self.parts),
        }
    }

    /// The length of one unit, exactly.
    pub fn grains(self) -> Grains
        ensures value { result ≡ unit_grains self }
        ensures exact { IsLength self [] result.0 }
        ensures range { result.0 ≤ grains_of_the_longest_length }
    {
        Grains(SHORTEST_UNIT * u64::from(MOST_PARTS / self.parts))
    }
}
