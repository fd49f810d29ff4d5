//! The length that a unit and its factors make.

ghost use Rattle.std.specs.Prelude.{◌≡◌, ◌<◌, ◌≤◌, ◌*◌, ◌↔◌, ℕ, All, IfSome, OnErr, OnOk, length};
ghost use Rattle.std.specs.Int.{◌∣◌};
ghost use Rattle.abc_time.specs.Grains.{grains_of_a_whole_note, grains_of_the_longest_length};
ghost use Rattle.abc_time.specs.Length.{IsLength, denominator_of, length_of, numerator_of};
ghost use Rattle.abc_time.specs.Product.{product_of};
ghost use Rattle.abc_time.specs.Ratio.{IsRatio};

use crate::cancel::cancel;
use crate::grains::{Grains, LONGEST_LENGTH, WHOLE_NOTE};
use crate::product::product_within;
use crate::ratio::Ratio;
use crate::ratio_product::times_ratios;
use thiserror::Error;

/// The reason why there is no length.
#[derive(Clone, Copy, Debug, PartialEq, Eq, Error)]
pub enum LengthFault {
    #[error("the length is not a whole number of grains")]
    NotWhole,
    #[error("the length is above 1,024 whole notes")]
    TooLong,
}

/// The unit of length times at most five factors (written, outer, tuplet, and broken rhythm twice), exactly, in grains
/// (ABC 2.1 sections 4.3, 4.4 and 4.13). The products of the parts may have 220 bits, so the function cancels common
/// divisors first. A product that is not whole is `NotWhole`, however long; a whole one above 1,024 whole notes is
/// `TooLong`.
pub fn length(unit: Ratio, factors: &[Ratio]) -> Result<Grains, LengthFault>
    requires unit { IsRatio unit }
    requires factors { All IsRatio factors.now }
    requires few { length factors.now ≤ 5 }
    ensures value { result ≡ length_of unit factors.now }

    // The same by the equation that a length fulfils.
    ensures ok { (g : ℕ) → (result ≡ Ok (record { 0 = g }))
        ↔ (IsLength unit factors.now g × (g ≤ grains_of_the_longest_length)) }
    ensures not_whole { (result ≡ Err LengthFault.NotWhole) ↔ ((g : ℕ) → ¬ IsLength unit factors.now g) }
    ensures too_long { (result ≡ Err LengthFault.TooLong)
        ↔ ((g : ℕ) × IsLength unit factors.now g × (grains_of_the_longest_length < g)) }
{
    match length_in_steps(unit, factors) {
        Some(grains) => Ok(grains),
        None => length_by_cancelling(unit, factors),
    }
}

/// Returns the length, if a division and a product for each ratio find it, as for nearly all lengths.
fn length_in_steps(unit: Ratio, factors: &[Ratio]) -> Option<Grains>
    requires unit { IsRatio unit }
    requires factors { All IsRatio factors.now }
    ensures { IfSome result (λ grains. Ok grains ≡ length_of unit factors.now) }
{
    let grains = times_ratios(WHOLE_NOTE.0, unit, factors)?;
    if grains <= LONGEST_LENGTH.0 {
        Some(Grains(grains))
    } else {
        None
    }
}

/// Returns the length, by cancelling the common divisors of all numerators and denominators.
fn length_by_cancelling(unit: Ratio, factors: &[Ratio]) -> Result<Grains, LengthFault>
    requires unit { IsRatio unit }
    requires factors { All IsRatio factors.now }
    requires few { length factors.now ≤ 5 }
    ensures { result ≡ length_of unit factors.now }
{
    let mut numerators = numerators_of(unit, factors);
    divide_by_denominators(&mut numerators, unit, factors)?;
    match product_within(&numerators, LONGEST_LENGTH.0) {
        Some(grains) => Ok(Grains(grains)),
        None => Err(LengthFault::TooLong),
    }
}

/// Returns the grains of a whole note, the numerators, and ones in the remaining places.
fn numerators_of(unit: Ratio, factors: &[Ratio]) -> [u64; 7]
    requires unit { IsRatio unit }
    requires factors { All IsRatio factors.now }
    requires few { length factors.now ≤ 5 }
    ensures product { product_of result ≡ grains_of_a_whole_note * numerator_of unit factors.now }
    ensures positive { All (λ n. 1 ≤ n) result }
{
    let mut numerators = [WHOLE_NOTE.0, u64::from(unit.num), 1, 1, 1, 1, 1];
    for (i, factor) in factors.iter().enumerate() {
        numerators[i + 2] = u64::from(factor.num);
    }
    numerators
}

/// Divides the product of the numerators by each denominator.
fn divide_by_denominators(
    numerators: &mut [u64],
    unit: Ratio,
    factors: &[Ratio],
) -> Result<(), LengthFault>
    requires numerators { All (λ n. 1 ≤ n) numerators.old }
    requires unit { IsRatio unit }
    requires factors { All IsRatio factors.now }
    ensures quotient { OnOk result (product_of numerators.new * denominator_of unit factors.now
        ≡ product_of numerators.old) }
    ensures not_whole { OnErr result ((result ≡ Err LengthFault.NotWhole)
        × ¬ (denominator_of unit factors.now ∣ product_of numerators.old)) }
    ensures positive { All (λ n. 1 ≤ n) numerators.new }
{
    divide(numerators, unit.den)?;
    for factor in factors {
        divide(numerators, factor.den)?;
    }
    Ok(())
}

/// Divides the product of the numerators by the divisor.
fn divide(numerators: &mut [u64], divisor: u32) -> Result<(), LengthFault>
    requires numerators { All (λ n. 1 ≤ n) numerators.old }
    requires divisor { 1 ≤ divisor }
    ensures quotient { OnOk result (product_of numerators.new * divisor ≡ product_of numerators.old) }
    ensures not_whole { OnErr result ((result ≡ Err LengthFault.NotWhole) × ¬ (divisor ∣ product_of numerators.old)) }
    ensures positive { All (λ n. 1 ≤ n) numerators.new }
{
    if cancel(numerators, u64::from(divisor)) == 1 {
        Ok(())
    } else {
        Err(LengthFault::NotWhole)
    }
}
