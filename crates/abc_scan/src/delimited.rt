//! Tokens between delimiters.

ghost use Rattle.std.specs.Prelude.{◌≡◌, drop, true, IfSome};
ghost use Rattle.abc_scan.specs.Front.{IsFront};
ghost use Rattle.abc_scan.specs.Byte.{opening_brace};
ghost use Rattle.abc_scan.specs.KnownAbsent.{IsKnownAbsent};
ghost use Rattle.abc_scan.specs.Delimited.{delimited_at};
ghost use Rattle.abc_scan.specs.Note.{begins_with_byte};

use crate::known_absent::{KnownAbsent, find};
use abc_text::find_byte;

/// Returns the size in bytes of the quoted text, decoration or grace group at the front of a text. It ends at the first
/// closing byte (ABC 2.1 sections 4.12, 4.14, 4.18 and 4.19). `absent` remembers a missing `}`.
#[tactic(auto, using(crate::proofs::Closings::rests), unfolding(crate::specs::Delimited::delimited_at))]
pub(crate) fn delimited_at(text: &[u8], absent: &mut KnownAbsent) -> Option<usize>
    requires { IsKnownAbsent absent.old (drop 1 text.now) }
    ensures value { result ≡ delimited_at text.now }
    ensures front { IfSome result (λ size. IsFront text.now size) }
    ensures absent { IsKnownAbsent absent.new (drop 1 text.now) }
    ensures remembered { result ≡ None → begins_with_byte opening_brace text.now ≡ true → absent.new.brace ≡ true }
{
    match text {
        [b'"', rest @ ..] => Some(find_byte(rest, b'"')? + 2),
        [b'!', rest @ ..] => Some(find_byte(rest, b'!')? + 2),
        [b'{', rest @ ..] => Some(find(&mut absent.brace, b'}', rest)? + 2),
        _ => None,
    }
}
