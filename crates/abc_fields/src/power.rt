//! Powers of two in the texts of fields.

ghost use Rattle.std.specs.Prelude.{◌≡◌, ◌<◌, ◌≤◌, ◌^◌, IfSome};
ghost use Rattle.abc_text.specs.Number.{number_of};
ghost use Rattle.abc_text.specs.Power.{power_up_to};

use abc_text::{is_power_up_to, number_of};

/// Returns the number that a text spells, if it is a power of two with an exponent up to `most`.
pub(crate) fn power_up_to(most: u32, text: &[u8]) -> Option<u32>
    requires { most < 32 }
    ensures value { result ≡ power_up_to most (number_of text.now) }
    ensures range { IfSome result (λ n. (1 ≤ n) × (n ≤ 2 ^ most)) }
{
    let number = number_of(text)?;
    if is_power_up_to(most, number) {
        Some(number)
    } else {
        None
    }
}
