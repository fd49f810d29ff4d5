//! The fault of a field line.

ghost use Rattle.std.specs.Prelude.{◌≡◌, IfOk};
ghost use Rattle.abc_bars_header.specs.FieldFault.{faults_of};

use abc_bars_items::{FIRST_COLUMN, LocalFault};
use abc_fields::FaultCode;
use abc_text::Sequence;
use std::alloc::{AllocError, Global};

/// The faults of a field line, by the fault of its field.
pub(crate) fn faults_of(
    alloc: Global,
    fault: Option<FaultCode>,
) -> Result<Sequence<LocalFault>, AllocError>
    ensures { IfOk result (λ faults. faults ≡ faults_of fault) }
{
    let mut faults = Sequence::new(alloc);
    if let Some(code) = fault {
        faults.push((FIRST_COLUMN, code))?;
    }
    Ok(faults)
}
