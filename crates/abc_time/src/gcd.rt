//! Greatest common divisors.

ghost use Rattle.abc_time.specs.Gcd.{IsGcdOfMultiples};

/// The greatest common divisor, by Euclid's algorithm.
pub fn gcd(a: u64, b: u64) -> u64
    ensures { IsGcdOfMultiples a b result }
{
    let mut x = a;
    let mut y = b;
    while y != 0 {
        let rest = x % y;
        x = y;
        y = rest;
    }
    x
}
