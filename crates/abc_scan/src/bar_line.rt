//! Bar lines.

ghost use Rattle.std.specs.Prelude.{◌≡◌, ◌≤◌, ◌<◌, ◌^◌, length, IfSome};
ghost use Rattle.abc_scan.specs.Front.{IsFront};
ghost use Rattle.abc_scan.specs.Bar.{goes_on, middle_size, is_double, bar_of_colons, bar_at};

use crate::run::run_of;

/// A bar line (ABC 2.1 section 4.8).
#[derive(Clone, Copy)]
pub struct BarLine {
    /// The colons before its strokes. Of `k` colons alone, `k - 1` close and as many open.
    pub closes: u32,
    /// The colons after its strokes.
    pub opens: u32,
    /// Whether its strokes and brackets are not a single `|`.
    pub double: bool,
}

/// Returns whether a byte between its neighbours belongs to the middle of a bar line.
fn goes_on(before: u8, byte: u8, rest: &[u8]) -> bool
    ensures { result ≡ goes_on before byte rest.now }
{
    match byte {
        b'|' => true,
        b'[' => rest.starts_with(b"|"),
        b']' => before == b'|',
        _ => false,
    }
}

/// Returns the number of bytes of strokes and brackets at the front of a text.
fn middle_size(text: &[u8]) -> usize
    ensures value { result ≡ middle_size text.now }
    ensures inside { result ≤ length text.now }
{
    let mut before = b' ';
    for (at, byte) in text.iter().enumerate() {
        if !goes_on(before, *byte, &text[at + 1..]) {
            return at;
        }
        before = *byte;
    }
    text.len()
}

/// Returns whether a middle is not a single `|`.
fn is_double(middle: &[u8]) -> bool
    ensures { result ≡ is_double middle.now }
{
    middle != b"|".as_slice()
}

/// The bar line of `count` colons alone: a single one is none.
fn bar_of_colons(count: usize) -> Option<(BarLine, usize)>
    requires { count < 2 ^ 31 }
    ensures { result ≡ bar_of_colons count }
{
    if count < 2 {
        return None;
    }
    let repeats = (count - 1) as u32;
    let bar = BarLine {
        closes: repeats,
        opens: repeats,
        double: true,
    };
    Some((bar, count))
}

/// The bar line at the front of a text, and its size in bytes.
#[tactic(auto, unfolding(crate::specs::Bar::bar_at))]
pub(crate) fn bar_at(text: &[u8]) -> Option<(BarLine, usize)>
    requires { length text.now < 2 ^ 31 }
    ensures value { result ≡ bar_at text.now }
    ensures front { IfSome result (λ r. IsFront text.now r.1) }
{
    let closes = run_of(b':', text);
    let following = &text[closes..];
    let middle = middle_size(following);
    if middle == 0 {
        return bar_of_colons(closes);
    }
    let opens = run_of(b':', &following[middle..]);
    let bar = BarLine {
        closes: closes as u32,
        opens: opens as u32,
        double: is_double(&following[..middle]),
    };
    Some((bar, closes + middle + opens))
}
