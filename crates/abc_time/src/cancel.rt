//! The common divisors of factors and a divisor.

ghost use Rattle.std.specs.Prelude.{◌≡◌, ◌*◌, ◌≤◌, All};
ghost use Rattle.std.specs.Int.{◌∣◌};
ghost use Rattle.abc_time.specs.Product.{product_of};

use crate::gcd::gcd;

/// Divides the numerators, one after another, and the divisor by their common divisors. Returns the rest of the
/// divisor: 1 exactly if the divisor divides their product.
pub fn cancel(numerators: &mut [u64], divisor: u64) -> u64
    requires numerators { All (λ n. 1 ≤ n) numerators.old }
    requires divisor { 1 ≤ divisor }
    ensures balance { product_of numerators.new * divisor ≡ product_of numerators.old * result }
    ensures whole { divisor ∣ product_of numerators.old → result ≡ 1 }
    ensures positive { All (λ n. 1 ≤ n) numerators.new }
{
    let mut rest = divisor;
    for numerator in numerators.iter_mut() {
        if rest == 1 {
            break;
        }
        if *numerator % rest == 0 {
            *numerator /= rest;
            rest = 1;
        } else {
            let common = gcd(*numerator, rest);
            *numerator /= common;
            rest /= common;
        }
    }
    rest
}
