//! Groups and counts of an order of parts.

ghost use Rattle.std.specs.Prelude.{◌≡◌, ◌<◌, ◌^◌, true};
ghost use Rattle.std.specs.Char.{is_ascii_digit};
ghost use Rattle.abc_fields.specs.Letters.{count_on};

use abc_fields::DEEPEST_GROUP;

/// The greatest number of groups that are open at once.
pub(crate) const MOST_GROUPS: usize = DEEPEST_GROUP as usize;

/// Returns a count with one more digit.
pub(crate) fn longer_count(count: Option<u32>, digit: u8) -> u32
    requires digit { is_ascii_digit digit ≡ true }
    requires short { count_on count digit < 2 ^ 32 }
    ensures { result ≡ count_on count digit }
{
    let digit = (digit - b'0') as u32;
    match count {
        None => digit,
        Some(count) => count * 10 + digit,
    }
}
