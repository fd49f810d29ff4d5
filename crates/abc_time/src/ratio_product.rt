//! Products of a number and ratios that are whole at every step.

ghost use Rattle.std.specs.Prelude.{◌≡◌, ◌≤◌, ◌*◌, All, IfSome};
ghost use Rattle.abc_time.specs.Length.{denominator_of, numerator_of};
ghost use Rattle.abc_time.specs.Ratio.{IsRatio};

use crate::ratio::Ratio;

/// Returns a number divided by another, if that is whole. Most denominators are 1.
fn quotient(number: u64, den: u64) -> Option<u64>
    requires { 1 ≤ den }
    ensures { IfSome result (λ quotient. quotient * den ≡ number) }
{
    if den == 1 {
        return Some(number);
    }
    if number % den == 0 {
        Some(number / den)
    } else {
        None
    }
}

/// Returns a number times a ratio, if the quotient by its denominator is whole and the product is below 2^64.
fn times_ratio(number: u64, ratio: Ratio) -> Option<u64>
    requires { IsRatio ratio }
    ensures { IfSome result (λ product. product * ratio.den ≡ number * ratio.num) }
{
    let quotient = quotient(number, u64::from(ratio.den))?;
    let product = quotient.checked_mul(u64::from(ratio.num))?;
    Some(product)
}

/// Returns a number times a ratio and then each of some others, if all products on the way are whole and below 2^64.
pub fn times_ratios(number: u64, unit: Ratio, factors: &[Ratio]) -> Option<u64>
    requires unit { IsRatio unit }
    requires factors { All IsRatio factors.now }
    ensures { IfSome result (λ product. product * denominator_of unit factors.now ≡ number * numerator_of unit factors.now) }
{
    let mut product = times_ratio(number, unit)?;
    for factor in factors {
        product = times_ratio(product, *factor)?;
    }
    Some(product)
}
