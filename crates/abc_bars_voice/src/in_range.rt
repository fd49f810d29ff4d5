//! Values of fields within their bounds.

ghost use Rattle.std.specs.Prelude.{◌≡◌, List, Result, IfOk, ℕ};
ghost use Rattle.abc_fields.specs.declared.fault_code.FaultCode.{FaultCode as Fault};

use abc_fields::FaultCode;
use std::alloc::AllocError;
use std::marker::Model;

/// The values of an information field.
pub trait FieldValue: Copy {
    // The value that a text sets.
    ghost value_of: { List ℕ → Result Self Fault };

    // The bounds of each value that is read.
    ghost IsInRange: { Self → Type 0 };

    /// Reads the value of a field.
    fn read_value(value: &[u8]) -> Result<Self, FaultCode>
        ensures value { result ≡ value_of value.now }
        ensures range { IfOk result IsInRange };
}

/// A value of a field, within its bounds. Contracts see the value.
pub struct InRange<V: FieldValue> {
    value: V,
}

impl<V: FieldValue> Clone for InRange<V> {
    ghost is_clone = { λ value copy. copy ≡ value };

    ghost is_infallible = { λ _. Unit {0} };

    fn clone(&self) -> Result<InRange<V>, AllocError> {
        Ok(*self)
    }
}

impl<V: FieldValue> Copy for InRange<V> {}

impl<V: FieldValue> Model for InRange<V> {
    ghost Value = { V };

    ghost view = { λ r. r.value };

    ghost invariant = { λ r. V.IsInRange r.value };

    ghost inverse = { λ value. record { value = value } };
}

impl<V: FieldValue> InRange<V> {
    /// A value that is known to be within its bounds.
    pub(crate) fn of(value: V) -> InRange<V>
        requires { V.IsInRange value }
        ensures { result ≡ value }
    {
        InRange { value }
    }

    /// Reads the value of a field.
    pub fn read(value: &[u8]) -> Result<InRange<V>, FaultCode>
        ensures { result ≡ V.value_of value.now }
    {
        let value = V::read_value(value)?;
        Ok(InRange { value })
    }

    /// The value.
    pub fn get(self) -> V
        ensures value { result ≡ self }
        ensures range { V.IsInRange result }
    {
        self.value
    }
}
