//! A text that the caller passes as a whole, cut into lines.

ghost use Rattle.std.specs.Prelude.{◌≡◌, true, [], ◌∷◌, ◌++◌, IfOk};
ghost use Rattle.abc_lines.specs.Text.{text_of};
ghost use Rattle.abc_lines.specs.TextLines.{lines_in, whole_lines};

use abc_text::cut_at;
use std::alloc::{AllocError, Global};

/// Returns the lines, and after them a last one without a line feed if it is not empty.
fn with_last(
    alloc: Global,
    mut lines: Vec<Vec<u8>>,
    last: &[u8],
) -> Result<Vec<Vec<u8>>, AllocError>
    ensures value { IfOk result (λ all. text_of all ≡ text_of lines ++ whole_lines true (last.now ∷ [])) }
{
    if !last.is_empty() {
        lines.push(Vec::from_slice(alloc, last)?)?;
    }
    Ok(lines)
}

/// Returns the lines of a text. It returns an error if an allocation fails.
pub fn lines_of_text(alloc: Global, text: &[u8]) -> Result<Vec<Vec<u8>>, AllocError>
    ensures value { IfOk result (λ lines. text_of lines ≡ lines_in text.now) }
{
    let mut lines = Vec::new(alloc);
    let mut rest = text;
    'lines: loop {
        match cut_at(rest, b'\n') {
            Some((line, after)) => {
                lines.push(Vec::from_slice(alloc, line)?)?;
                rest = after;
            }
            None => return with_last(alloc, lines, rest),
        }
    }
}
