//! The edges of text blocks.

ghost use Rattle.std.specs.Prelude.{◌≡◌, ◌≤◌, length};
ghost use Rattle.std.specs.List.{prefix_len};
ghost use Rattle.std.specs.Option.{option_copied};
ghost use Rattle.std.specs.Char.{is_ascii_alphabetic};
ghost use Rattle.abc_marks_readers.specs.Block.{block_begun_by, block_ended_by, block_name, ends_or_blank};

use abc_text::{is_blank, without_return};

/// Returns the number of letters at the front of a text.
fn leading_letters(text: &[u8]) -> usize
    ensures value { result ≡ prefix_len is_ascii_alphabetic text.now }
    ensures inside { result ≤ length text.now }
{
    text.iter()
        .take_while(|byte| byte.is_ascii_alphabetic())
        .count()
}

/// Returns whether a text is empty or begins with a blank.
fn ends_or_blank(text: &[u8]) -> bool
    ensures { result ≡ ends_or_blank text.now }
{
    match text {
        [] => true,
        [byte, ..] => is_blank(*byte),
    }
}

/// Returns the name of a text block at the front of a text: letters, up to its end or a blank.
fn block_name(text: &[u8]) -> Option<&[u8]>
    ensures { option_copied result ≡ block_name text.now }
{
    let letters = leading_letters(text);
    if letters == 0 || !ends_or_blank(&text[letters..]) {
        return None;
    }
    Some(&text[..letters])
}

/// Returns the name of the text block that a line begins, as `%%begintext` (ABC 2.1 section 11.1).
#[tactic(auto, unfolding(crate::specs::Block::block_begun_by))]
pub fn block_begun_by(line: &[u8]) -> Option<&[u8]>
    ensures { option_copied result ≡ block_begun_by line.now }
{
    block_name(without_return(line).strip_prefix(b"%%begin")?)
}

/// Returns the name of the text block that a line ends, as `%%endtext` (ABC 2.1 section 11.1).
#[tactic(auto, unfolding(crate::specs::Block::block_ended_by))]
pub fn block_ended_by(line: &[u8]) -> Option<&[u8]>
    ensures { option_copied result ≡ block_ended_by line.now }
{
    block_name(without_return(line).strip_prefix(b"%%end")?)
}
