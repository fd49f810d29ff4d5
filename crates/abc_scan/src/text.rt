//! The part of a line that the scanner reads.

ghost use Rattle.std.specs.Prelude.{◌≡◌, ◌≤◌, length};
ghost use Rattle.abc_scan.specs.Text.{without_comment};

use abc_text::find_byte;

/// The part before the first `%` of a text that begins a comment, or the whole text.
fn up_to_comment(text: &[u8]) -> &[u8]
    ensures value { result.now ≡ without_comment text.now }
    ensures bounded { length result.now ≤ length text.now }
{
    let mut before = b' ';
    for (at, byte) in text.iter().enumerate() {
        if *byte == b'%' && before != b'\\' {
            return &text[..at];
        }
        before = *byte;
    }
    text
}

/// A text without its comment. Most texts have no `%`, and a search for one byte is faster than a walk with the byte before.
#[tactic(auto, using(crate::proofs::Comments::before_comment_none))]
pub(crate) fn without_comment(text: &[u8]) -> &[u8]
    ensures value { result.now ≡ without_comment text.now }
    ensures bounded { length result.now ≤ length text.now }
{
    match find_byte(text, b'%') {
        Some(_) => up_to_comment(text),
        None => text,
    }
}
