//! Fields inside a music line.

ghost use Rattle.std.specs.Prelude.{◌≡◌, IfOk, IfSome, drop, true};
ghost use Rattle.abc_scan.specs.Front.{IsFront};
ghost use Rattle.abc_scan.specs.KnownAbsent.{IsKnownAbsent};
ghost use Rattle.abc_scan.specs.InlineField.{opens_field, inline_field_at};

use crate::field::{Field, begins_field, field_of};
use crate::known_absent::{KnownAbsent, find};
use std::alloc::{AllocError, Global};

/// The inline field at the front of a text, and its size in bytes: up to the first `]` (ABC 2.1 section 3.2). `absent`
/// remembers a missing `]`.
#[tactic(auto, using(crate::proofs::Closings::rests), unfolding(crate::specs::InlineField::inline_field_at))]
pub(crate) fn inline_field_at(
    alloc: Global,
    text: &[u8],
    absent: &mut KnownAbsent,
) -> Result<Option<(Field, usize)>, AllocError>
    requires { IsKnownAbsent absent.old (drop 1 text.now) }
    ensures value { IfOk result (λ reading. reading ≡ inline_field_at text.now) }
    ensures front { IfOk result (λ reading. IfSome reading (λ r. IsFront text.now r.1)) }
    ensures absent { IsKnownAbsent absent.new (drop 1 text.now) }
    ensures remembered { IfOk result (λ reading. reading ≡ None → opens_field text.now ≡ true → absent.new.bracket ≡ true) }
{
    match text {
        [b'[', inside @ ..] if begins_field(inside) => {
            let Some(place) = find(&mut absent.bracket, b']', inside) else {
                return Ok(None);
            };
            let field = field_of(alloc, &inside[..place])?;
            Ok(Some((field, place + 2)))
        }
        _ => Ok(None),
    }
}
