//! Powers of two.

ghost use Rattle.std.specs.Prelude.{◌≡◌, ◌↔◌, ◌<◌, ◌≤◌, ◌^◌, IsTrue};
ghost use Rattle.abc_text.specs.Power.{IsPowerUpTo, is_power_up_to};

/// Returns whether a number is a power of two with an exponent up to `most`.
pub fn is_power_up_to(most: u32, number: u32) -> bool
    requires { most < 32 }
    ensures value { result ≡ is_power_up_to most number }
    ensures power { IsTrue result ↔ IsPowerUpTo most number }
    ensures bounded { IsTrue result → (1 ≤ number) × (number ≤ 2 ^ most) }
{
    for power in 0..most + 1 {
        if number == 1 << power {
            return true;
        }
    }
    false
}
