//! Numbers of one to nine digits.

ghost use Rattle.std.specs.Prelude.{◌≡◌, ◌≤◌, ◌↔◌, ℕ, IfSome, Some};
ghost use Rattle.std.specs.List.{list_all};
ghost use Rattle.abc_text.specs.Digit.{is_digit};
ghost use Rattle.abc_text.specs.Number.{number_of, IsNumber};

use crate::digit::{LARGEST_NUMBER, LONGEST_NUMBER, decimal, is_digit};

/// Returns whether all bytes of a text are digits.
fn are_digits(text: &[u8]) -> bool
    ensures { result ≡ list_all is_digit text.now }
{
    text.iter().all(|byte| is_digit(*byte))
}

/// Returns the value of one to nine decimal digits, leading zeros included.
pub fn number_of(text: &[u8]) -> Option<u32>
    ensures value { result ≡ number_of text.now }
    ensures spelled { (n : ℕ) → (result ≡ Some n) ↔ IsNumber text.now n }
    ensures bounded { IfSome result (λ n. n ≤ LARGEST_NUMBER) }
{
    if text.is_empty() || text.len() > LONGEST_NUMBER || !are_digits(text) {
        return None;
    }
    Some(decimal(text))
}
