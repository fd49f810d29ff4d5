//! The unit note length, L:.

ghost use Rattle.std.specs.Prelude.{◌≡◌, IfOk};
ghost use Rattle.abc_time.specs.Ratio.{IsRatio};
ghost use Rattle.abc_fields.specs.Unit.{part_of, unit_in, unit_of};
ghost use Rattle.abc_fields.specs.Reading.{IsReading};
ghost use Rattle.abc_fields.specs.Spelling.Unit.{IsUnit};

use crate::fault_code::FaultCode;
use crate::power::power_up_to;
use abc_time::Ratio;

/// The greatest number of halvings of a whole note: the finest unit is a 512th.
const MOST_HALVINGS: u32 = 9;

/// Returns the denominator of the value, as 8 for `1/8`.
fn part_of(value: &[u8]) -> Option<u32>
    ensures { result ≡ part_of value.now }
{
    match value {
        [b'1'] => Some(1),
        [b'1', b'/', below @ ..] => power_up_to(MOST_HALVINGS, below),
        _ => None,
    }
}

/// Returns the unit of a value, if it is accepted.
fn unit_in(value: &[u8]) -> Option<Ratio>
    ensures { result ≡ unit_in value.now }
{
    let den = part_of(value)?;
    Some(Ratio { num: 1, den })
}

/// Reads the value of L: (ABC 2.1 section 3.1.7): `1`, or `1/d` with d a power of two up to 512 (the bound is not in ABC 2.1);
/// anything else is `BadUnit`.
pub fn read_unit(value: &[u8]) -> Result<Ratio, FaultCode>
    ensures value { result ≡ unit_of value.now }
    ensures exact { IsReading (IsUnit value.now) FaultCode.BadUnit result }
    ensures range { IfOk result IsRatio }
{
    unit_in(value).ok_or(FaultCode::BadUnit)
}
