//! Lengths as they are written after notes and rests.

ghost use Rattle.std.specs.Prelude.{◌≡◌, ◌≤◌, ◌==◌, if◌then◌else◌, length, take};
ghost use Rattle.std.specs.List.{prefix_len, AllPass};
ghost use Rattle.abc_text.specs.Digit.{is_digit};
ghost use Rattle.abc_scan.specs.Length.{begins_length, is_slash, number_or, written_length, length_at, length_size};

use crate::run::run_of;
use abc_text::{LONGEST_NUMBER, decimal, digits, is_digit};

/// The most slashes of a length. The power of two that they write then has at most nine digits. Not in ABC 2.1.
pub(crate) const MOST_SLASHES: usize = 29;

const _: () = prove!(MOST_SLASHES == 29);

/// The value of a length text: the factor of the unit note length (ABC 2.1 section 4.3).
#[derive(Clone, Copy)]
pub enum WrittenLength {
    /// `num / den`, each from 1 to 999,999,999.
    Factor { num: u32, den: u32 },
    /// A number that is 0 or has more than nine digits, or more than `MOST_SLASHES` slashes.
    Refused,
}

/// Returns the number of slashes at the front of a text.
fn slashes(text: &[u8]) -> usize
    ensures value { result ≡ prefix_len is_slash text.now }
    ensures inside { result ≤ length text.now }
{
    run_of(b'/', text)
}

/// Returns the number of digits after the slashes: only a single slash has any.
fn digits_after(slashes: usize, text: &[u8]) -> usize
    ensures value { result ≡ (if slashes == 1 then prefix_len is_digit text.now else 0) }
    ensures inside { result ≤ length text.now }
    ensures digits { AllPass is_digit (take result text.now) }
{
    if slashes == 1 { digits(text) } else { 0 }
}

/// The number that digits write, if it is accepted, or another if there are none.
fn number_or(digits: &[u8], other: u32) -> Option<u32>
    requires { AllPass is_digit digits.now }
    ensures { result ≡ number_or digits.now other }
{
    match digits {
        [] => Some(other),
        [_, ..] => {
            if digits.len() > LONGEST_NUMBER {
                return None;
            }
            let number = decimal(digits);
            if number == 0 { None } else { Some(number) }
        }
    }
}

/// The value of digits, slashes and the digits after them.
fn written_length(over: &[u8], slashes: usize, under: &[u8]) -> WrittenLength
    requires over { AllPass is_digit over.now }
    requires under { AllPass is_digit under.now }
    ensures { result ≡ written_length over.now slashes under.now }
{
    if slashes > MOST_SLASHES {
        return WrittenLength::Refused;
    }
    match (number_or(over, 1), number_or(under, 1 << slashes)) {
        (Some(num), Some(den)) => WrittenLength::Factor { num, den },
        _ => WrittenLength::Refused,
    }
}

/// Returns whether a text begins with a digit or a slash.
pub(crate) fn begins_length(text: &[u8]) -> bool
    ensures { result ≡ begins_length text.now }
{
    match text {
        [] => false,
        [byte, ..] => is_digit(*byte) || *byte == b'/',
    }
}

/// The length that a text begins with, and its size in bytes.
#[tactic(auto, unfolding(crate::specs::Length::length_at, crate::specs::Length::length_size))]
fn some_length_at(text: &[u8]) -> (WrittenLength, usize)
    ensures value { result.0 ≡ length_at text.now }
    ensures size { result.1 ≡ length_size text.now }
    ensures inside { result.1 ≤ length text.now }
{
    let over = digits(text);
    let rest = &text[over..];
    let slashes = slashes(rest);
    let following = &rest[slashes..];
    let under = digits_after(slashes, following);
    let value = written_length(&text[..over], slashes, &following[..under]);
    (value, over + slashes + under)
}

/// The length at the front of a text, and its size in bytes. Most notes have none.
#[inline(always)]
#[tactic(auto, unfolding(crate::specs::Length::length_at, crate::specs::Length::length_size))]
pub(crate) fn length_at(text: &[u8]) -> (WrittenLength, usize)
    ensures value { result.0 ≡ length_at text.now }
    ensures size { result.1 ≡ length_size text.now }
    ensures inside { result.1 ≤ length text.now }
{
    if begins_length(text) {
        some_length_at(text)
    } else {
        (WrittenLength::Factor { num: 1, den: 1 }, 0)
    }
}
