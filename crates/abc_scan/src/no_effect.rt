//! Tokens without effect.

ghost use Rattle.std.specs.Prelude.{◌≡◌, IfSome};
ghost use Rattle.abc_scan.specs.Front.{IsFront};
ghost use Rattle.abc_scan.specs.NoEffect.{extra_space_at};

use crate::number::optional_number_at;

/// Returns the size in bytes of the `y` at the front of a text, with its number (ABC 2.1 section 6.1.2).
#[tactic(auto, unfolding(crate::specs::NoEffect::extra_space_at))]
pub(crate) fn extra_space_at(text: &[u8]) -> Option<usize>
    ensures value { result ≡ extra_space_at text.now }
    ensures front { IfSome result (λ size. IsFront text.now size) }
{
    match text {
        [b'y', following @ ..] => {
            let (_, size) = optional_number_at(following);
            Some(1 + size)
        }
        _ => None,
    }
}
