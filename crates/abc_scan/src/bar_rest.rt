//! Rests of whole bars.

ghost use Rattle.std.specs.Prelude.{◌≡◌, IfSome};
ghost use Rattle.abc_scan.specs.Front.{IsFront};
ghost use Rattle.abc_scan.specs.BarRest.{bar_rest_at};

use crate::number::optional_number_at;

/// Returns the number of bars of the rest at the front of a text, if one is written, and the size of the rest in bytes.
#[tactic(auto, unfolding(crate::specs::BarRest::bar_rest_at))]
pub(crate) fn bar_rest_at(text: &[u8]) -> Option<(Option<u32>, usize)>
    ensures value { result ≡ bar_rest_at text.now }
    ensures front { IfSome result (λ r. IsFront text.now r.1) }
{
    match text {
        [b'Z' | b'X', following @ ..] => {
            let (bars, size) = optional_number_at(following);
            Some((bars, 1 + size))
        }
        _ => None,
    }
}
