//! The lines of a text.

ghost use Rattle.std.specs.Prelude.{◌≡◌, IfOk};
ghost use Rattle.std.specs.List.{list_all};
ghost use Rattle.abc_lines.specs.Text.{is_line, lines_of};

use crate::limits::LONGEST_LINE;
use abc_text::Sequence;
use std::alloc::{AllocError, Global};

/// The bytes of a line without its line feed.
pub(crate) type Line = Sequence<u8>;

/// Whether the bytes may be a line of a text.
fn is_line(bytes: &[u8]) -> bool
    ensures { result ≡ is_line bytes.now }
{
    bytes.len() <= LONGEST_LINE && !bytes.contains(&b'\n')
}

/// Whether each may be a line of a text.
pub(crate) fn are_lines(lines: &[Vec<u8>]) -> bool
    ensures { result ≡ list_all is_line (lines_of lines.now) }
{
    lines.iter().all(|line| is_line(line))
}

/// Copies of lines.
pub(crate) fn copies(alloc: Global, lines: &[Vec<u8>]) -> Result<Vec<Line>, AllocError>
    ensures { IfOk result (λ copies. copies.items ≡ lines_of lines.now) }
{
    let mut copies = Vec::with_capacity(alloc, lines.len())?;
    for line in lines {
        copies.push(Line::from_slice(alloc, line)?)?;
    }
    Ok(copies)
}
