//! The meter, M:.

ghost use Rattle.std.specs.Prelude.{◌≡◌, IfOk};
ghost use Rattle.abc_fields.specs.Meter.{add_word, sum_of, upper_number, fraction_of, symbol_or_fraction, meter_of, IsMeterInRange};
ghost use Rattle.abc_fields.specs.Reading.{IsReading};
ghost use Rattle.abc_fields.specs.Spelling.Meter.{IsMeter};
ghost use Rattle.abc_text.specs.Power.{power_up_to};
ghost use Rattle.abc_text.specs.Number.{number_of};

use crate::fault_code::FaultCode;
use crate::power::power_up_to;
use abc_text::{cut_at, number_of};

/// The meter of a tune (ABC 2.1 section 3.1.6).
#[derive(Clone, Copy, PartialEq, Eq)]
pub enum Meter {
    /// No meter.
    Free,
    /// A bar of `num` parts. A whole note has `den` such parts.
    Of { num: u8, den: u8 },
}

/// The greatest number of halvings of a whole note: the finest part of a bar is a 64th.
const MOST_HALVINGS: u32 = 6;

/// Returns the sum so far plus the number that a word spells, if the result is at most 255.
fn add_word(sum: u8, word: &[u8]) -> Option<u8>
    ensures { result ≡ add_word sum (number_of word.now) }
{
    u8::try_from(u32::from(sum) + number_of(word)?).ok()
}

/// The sum of the numbers between plus signs, if it is at most 255.
fn sum_of(text: &[u8]) -> Option<u8>
    ensures { result ≡ sum_of text.now }
{
    let mut sum = 0;
    for word in text.split(|byte| *byte == b'+') {
        sum = add_word(sum, word)?;
    }
    Some(sum)
}

/// The number above the stroke: a number, or a sum, which may be in parentheses.
fn upper_number(text: &[u8]) -> Option<u8>
    ensures { result ≡ upper_number text.now }
{
    match text {
        [b'(', sum @ .., b')'] if sum.contains(&b'+') => sum_of(sum),
        _ => sum_of(text),
    }
}

/// The number below the stroke: a power of two up to 64.
fn lower_number(text: &[u8]) -> Option<u8>
    ensures { result ≡ power_up_to 6 (number_of text.now) }
{
    Some(power_up_to(MOST_HALVINGS, text)? as u8)
}

/// Reads a meter that is written as a fraction.
#[tactic(auto, unfolding(crate::specs::Meter::fraction_of))]
fn fraction_of(text: &[u8]) -> Option<Meter>
    ensures { result ≡ fraction_of text.now }
{
    let (above, below) = cut_at(text, b'/')?;
    let num = upper_number(above)?;
    let den = lower_number(below)?;
    if num == 0 {
        None
    } else {
        Some(Meter::Of { num, den })
    }
}

/// Reads a symbol, or a meter that is written as a fraction.
#[tactic(auto, unfolding(crate::specs::Meter::symbol_or_fraction))]
fn symbol_or_fraction(text: &[u8]) -> Option<Meter>
    ensures { result ≡ symbol_or_fraction text.now }
{
    match text {
        b"" | b"none" => Some(Meter::Free),
        b"C" => Some(Meter::Of { num: 4, den: 4 }),
        b"C|" => Some(Meter::Of { num: 2, den: 2 }),
        _ => fraction_of(text),
    }
}

/// Reads the value of M: (ABC 2.1 section 3.1.6): empty or `none` for free meter, `C`, `C|`, or `n/d`. n is a number or
/// a sum, in parentheses or not, from 1 to 255. d is a power of two up to 64. Anything else is `BadMeter`. The bounds
/// and the empty value are not in ABC 2.1.
pub fn read_meter(value: &[u8]) -> Result<Meter, FaultCode>
    ensures value { result ≡ meter_of value.now }
    ensures exact { IsReading (IsMeter value.now) FaultCode.BadMeter result }
    ensures range { IfOk result IsMeterInRange }
{
    symbol_or_fraction(value).ok_or(FaultCode::BadMeter)
}
