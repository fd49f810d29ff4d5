//! Blanks, and a text without those at its ends.

ghost use Rattle.std.specs.Prelude.{◌≡◌, ◌≤◌, length};
ghost use Rattle.abc_text.specs.Blank.{is_blank, trim_start, trim_end, trim_blanks};

use bstr::ByteSlice;

/// Returns whether a byte is a space or a tab.
pub fn is_blank(byte: u8) -> bool
    ensures { result ≡ is_blank byte }
{
    byte == b' ' || byte == b'\t'
}

/// Returns whether a character is a space or a tab.
fn is_blank_char(c: char) -> bool
    ensures { result ≡ is_blank c }
{
    c == ' ' || c == '\t'
}

/// Returns a text without its leading blanks.
pub fn trim_start(text: &[u8]) -> &[u8]
    ensures value { result.now ≡ trim_start text.now }
    ensures bounded { length result.now ≤ length text.now }
{
    text.trim_start_with(is_blank_char)
}

/// Returns a text without its trailing blanks.
pub fn trim_end(text: &[u8]) -> &[u8]
    ensures value { result.now ≡ trim_end text.now }
    ensures bounded { length result.now ≤ length text.now }
{
    text.trim_end_with(is_blank_char)
}

/// Returns a text without the spaces and tabs at its ends.
pub fn trim_blanks(text: &[u8]) -> &[u8]
    ensures value { result.now ≡ trim_blanks text.now }
    ensures bounded { length result.now ≤ length text.now }
{
    text.trim_with(is_blank_char)
}
