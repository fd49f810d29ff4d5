//! The number at the front of a text.

ghost use Rattle.std.specs.Prelude.{◌≡◌, ◌≤◌, length, IfSome};
ghost use Rattle.abc_scan.specs.Front.{IsFront};
ghost use Rattle.abc_scan.specs.Number.{number_size, number_at, optional_number_at};

use abc_text::{LARGEST_NUMBER, LONGEST_NUMBER, decimal, digits};

/// Returns the number of digits of a number at the front of a text.
fn number_size(text: &[u8]) -> usize
    ensures value { result ≡ number_size text.now }
    ensures few { result ≤ LONGEST_NUMBER }
    ensures inside { result ≤ length text.now }
{
    digits(&text[..text.len().min(LONGEST_NUMBER)])
}

/// The number of one to nine digits at the front of a text, and its size in bytes.
#[tactic(auto, using(crate::proofs::Numbers::number_digits), unfolding(crate::specs::Number::number_at))]
pub(crate) fn number_at(text: &[u8]) -> Option<(u32, usize)>
    ensures value { result ≡ number_at text.now }
    ensures small { IfSome result (λ r. r.0 ≤ LARGEST_NUMBER) }
    ensures front { IfSome result (λ r. IsFront text.now r.1) }
{
    let size = number_size(text);
    if size == 0 {
        return None;
    }
    Some((decimal(&text[..size]), size))
}

/// The number at the front of a text, if there is one, and its size in bytes.
pub(crate) fn optional_number_at(text: &[u8]) -> (Option<u32>, usize)
    ensures value { result ≡ optional_number_at text.now }
    ensures small { IfSome result.0 (λ n. n ≤ LARGEST_NUMBER) }
    ensures inside { result.1 ≤ length text.now }
{
    match number_at(text) {
        Some((number, size)) => (Some(number), size),
        None => (None, 0),
    }
}
