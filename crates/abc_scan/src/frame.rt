//! The frame of a chord: its brackets and its outer length.

ghost use Rattle.std.specs.Prelude.{◌≡◌, ◌≤◌, ◌+◌, IfSome, length};
ghost use Rattle.std.specs.List.{prefix_len};
ghost use Rattle.abc_scan.specs.Front.{IsFront};
ghost use Rattle.abc_scan.specs.Frame.{is_inside, frame_at};

use crate::field::begins_field;
use crate::length::{WrittenLength, length_at};

/// The brackets and the outer length of a chord.
#[derive(Clone, Copy)]
pub(crate) struct Frame {
    /// The number of bytes between the brackets.
    pub(crate) inside: usize,
    /// The length after the brackets.
    pub(crate) length: WrittenLength,
}

/// Returns whether a byte may be between the brackets of a chord.
fn is_inside(byte: u8) -> bool
    ensures { result ≡ is_inside byte }
{
    byte != b'[' && byte != b']' && byte != b'|'
}

/// Returns the number of bytes at the front of a text that may be inside a chord.
fn inside_size(text: &[u8]) -> usize
    ensures value { result ≡ prefix_len is_inside text.now }
    ensures inside { result ≤ length text.now }
{
    text.iter().take_while(|byte| is_inside(**byte)).count()
}

/// The frame of the chord at the front of a text, and its size in bytes (ABC 2.1 section 4.17).
#[tactic(auto, unfolding(crate::specs::Frame::frame_at))]
pub(crate) fn frame_at(text: &[u8]) -> Option<(Frame, usize)>
    ensures value { result ≡ frame_at text.now }
    ensures front { IfSome result (λ r. IsFront text.now r.1) }
    ensures framed { IfSome result (λ r. r.0.inside + 2 ≤ r.1) }
{
    match text {
        [b'[', rest @ ..] if !begins_field(rest) => {
            let inside = inside_size(rest);
            match &rest[inside..] {
                [b']', following @ ..] => {
                    let (length, size) = length_at(following);
                    Some((Frame { inside, length }, inside + 2 + size))
                }
                _ => None,
            }
        }
        _ => None,
    }
}
