//! The current meter.

ghost use Rattle.std.specs.Prelude.{◌≡◌};
ghost use Rattle.abc_fields.specs.Meter.{meter_of, IsMeterInRange};

use crate::in_range::{FieldValue, InRange};
use abc_fields::{FaultCode, Meter, read_meter};

/// A meter of an M:, or none, which is free meter (ABC 2.1 section 3.1.6). Contracts see the meter.
pub type TuneMeter = InRange<Meter>;

impl FieldValue for Meter {
    ghost value_of = { meter_of };

    ghost IsInRange = { IsMeterInRange };

    fn read_value(value: &[u8]) -> Result<Meter, FaultCode> {
        read_meter(value)
    }
}

impl InRange<Meter> {
    /// Free meter.
    pub fn free() -> TuneMeter
        ensures { result ≡ Meter.Free }
    {
        InRange::of(Meter::Free)
    }
}
