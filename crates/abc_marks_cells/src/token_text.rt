//! The bytes of tokens.

ghost use Rattle.std.specs.Prelude.{◌≡◌};
ghost use Rattle.abc_scan.specs.Note.{begins_with_byte};
ghost use Rattle.abc_marks_cells.specs.TokenText.{inside_of, text_of};

use abc_scan::Token;

/// Returns the bytes of a token of a line.
pub(crate) fn text_of<'a>(line: &'a [u8], token: &Token) -> &'a [u8]
    ensures { result.now ≡ text_of line.now token.now }
{
    let (from, to) = (token.from as usize, token.to as usize);
    if to < from || line.len() < to {
        return &[];
    }
    &line[from..to]
}

/// Returns the bytes between the first and the last one.
pub(crate) fn inside_of(text: &[u8]) -> &[u8]
    ensures { result.now ≡ inside_of text.now }
{
    match text {
        [] => &[],
        [_, rest @ ..] => {
            if rest.is_empty() {
                return &[];
            }
            &rest[..rest.len() - 1]
        }
    }
}

/// Returns whether a text begins with this byte.
pub(crate) fn begins_with_byte(byte: u8, text: &[u8]) -> bool
    ensures { result ≡ begins_with_byte byte text.now }
{
    match text {
        [first, ..] => *first == byte,
        [] => false,
    }
}
