//! The reference number of a tune.

ghost use Rattle.std.specs.Prelude.{◌≡◌, ◌≤◌, IfOk};
ghost use Rattle.abc_text.specs.declared.digit.TheConstants.{LARGEST_NUMBER};
ghost use Rattle.abc_bars_header.specs.Reference.{reference_of};

use abc_fields::FaultCode;
use abc_text::number_of;

/// The reference number of a value of X: (ABC 2.1 section 3.1.1): a number from 1; an empty value counts as 0.
pub(crate) fn reference_of(value: &[u8]) -> Result<u32, FaultCode>
    ensures value { result ≡ reference_of value.now }
    ensures range { IfOk result (λ number. number ≤ LARGEST_NUMBER) }
{
    if value.is_empty() {
        return Ok(0);
    }
    match number_of(value) {
        None | Some(0) => Err(FaultCode::BadReference),
        Some(number) => Ok(number),
    }
}
