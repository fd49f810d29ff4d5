//! A fault as C sees it.

ghost use Rattle.std.specs.Prelude.{◌≡◌};
ghost use Rattle.abc_fields.specs.Fault.{number_of};

use abc_live::Fault;

/// The place of a fault, and the number of its code.
#[repr(C)]
#[derive(Clone, Copy)]
pub struct FaultRecord {
    /// The number of its line, from 1.
    pub line: u32,
    /// The number of the byte in its line, from 1.
    pub column: u32,
    pub code: u32,
}

impl FaultRecord {
    /// Returns the record of a fault.
    pub fn of(fault: Fault) -> FaultRecord
        ensures value { result ≡ record { line = fault.line; column = fault.column; code = number_of fault.code } }
    {
        FaultRecord {
            line: fault.line,
            column: fault.column,
            code: u32::from(fault.code.number()),
        }
    }
}
