//! Variable-length quantities.
ghost use Rattle.std.specs.Prelude.{◌≡◌, ℕ, ◌+◌, ◌*◌, ◌%◌, ◌^◌, ◌<◌, ◌↔◌, ◌++◌, OnOk, OnErr};
ghost use Rattle.smf_bytes.specs.Number.{number_text, StartsWithNumber, IsPadded, IsTooLong, IsTruncated, read_result};

use std::alloc::AllocError;
use thiserror::Error;

/// The reason why bytes do not begin with a variable-length quantity.
#[derive(Clone, Copy, Debug, PartialEq, Eq, Error)]
pub enum NumberFault {
    /// The first byte is 80 in hexadecimal. No quantity in its shortest form begins with it.
    #[error("the quantity begins with a byte 80")]
    Padded,
    /// The first four bytes have the top bit set, so that a fifth would belong to the quantity.
    #[error("the quantity has more than four bytes")]
    TooLong,
    /// The bytes end before the quantity does.
    #[error("the quantity is cut off")]
    Truncated,
}

/// Appends the variable-length quantity of `n`, which is below 2^28 (SMF 1.0): seven bits a byte, highest first, the top
/// bit set on all but the last. If an allocation fails, `out` is unchanged.
#[tactic(auto, unfolding(crate::specs::Number::number_text))]
pub fn put_number(out: &mut Vec<u8>, n: u32) -> Result<(), AllocError>
    requires { n < 2 ^ 28 }
    ensures ok { OnOk result (out.new.items ≡ out.old.items ++ number_text n) }
    ensures unchanged { OnErr result (out.new.items ≡ out.old.items) }
{
    let last = (n % 0x80) as u8;
    let second = n / 0x80;
    let third = second / 0x80;
    let fourth = third / 0x80;
    if second == 0 {
        out.push(last)?;
        Ok(())
    } else if third == 0 {
        out.extend_from_slice(&[leading_byte(second), last])
    } else if fourth == 0 {
        out.extend_from_slice(&[leading_byte(third), leading_byte(second), last])
    } else {
        out.extend_from_slice(&[
            leading_byte(fourth),
            leading_byte(third),
            leading_byte(second),
            last,
        ])
    }
}

/// Returns the byte of the lowest seven bits, with the top bit set.
pub(crate) fn leading_byte(n: u32) -> u8
    ensures { result ≡ 128 + n % 128 }
{
    (0x80 + n % 0x80) as u8
}

/// Reads the variable-length quantity (SMF 1.0) at the front of bytes, and returns its number and its count of bytes. Refuses,
/// in this order: `Padded` if the first byte is `0x80`; `TooLong` if the first four bytes have the top bit set; `Truncated` if
/// the bytes end before the quantity does.
pub fn read_number(bytes: &[u8]) -> Result<(u32, usize), NumberFault>
    ensures ok { (n used : ℕ) → (result ≡ Ok (n, used)) ↔ StartsWithNumber bytes.now n used }
    ensures padded { (result ≡ Err NumberFault.Padded) ↔ IsPadded bytes.now }
    ensures too_long { (result ≡ Err NumberFault.TooLong) ↔ IsTooLong bytes.now }
    ensures truncated { (result ≡ Err NumberFault.Truncated) ↔ IsTruncated bytes.now }
{
    read(bytes)
}

/// Returns the number at the front of bytes and its count of bytes, or what is wrong.
#[tactic(auto, unfolding(crate::specs::Number::read_result))]
fn read(bytes: &[u8]) -> Result<(u32, usize), NumberFault>
    ensures { result ≡ read_result bytes.now }
{
    match bytes {
        [0x80, ..] => Err(NumberFault::Padded),
        [a, ..] if *a < 0x80 => Ok((*a as u32, 1)),
        [a, b, ..] if *b < 0x80 => Ok((with_next_byte(low_bits(*a), *b), 2)),
        [a, b, c, ..] if *c < 0x80 => Ok((with_next_byte(with_next_byte(low_bits(*a), *b), *c), 3)),
        [a, b, c, d, ..] if *d < 0x80 => {
            Ok((
                with_next_byte(with_next_byte(with_next_byte(low_bits(*a), *b), *c), *d),
                4,
            ))
        }
        [_, _, _, _, ..] => Err(NumberFault::TooLong),
        _ => Err(NumberFault::Truncated),
    }
}

/// Returns the lowest seven bits of a byte.
fn low_bits(byte: u8) -> u32
    ensures { result ≡ byte % 128 }
{
    (byte % 0x80) as u32
}

/// Returns a number with the lowest seven bits of one more byte.
fn with_next_byte(n: u32, byte: u8) -> u32
    requires { n < 2 ^ 21 }
    ensures { result ≡ n * 128 + byte % 128 }
{
    n * 0x80 + low_bits(byte)
}
