//! A tune book, cut into lines.

ghost use Rattle.std.specs.Prelude.{◌≡◌, IfOk};
ghost use Rattle.abc_lines.specs.Text.{text_of};
ghost use Rattle.abc2midi_live.specs.Transcript.{book_lines, without_mark};

use abc_lines::lines_of_text;
use std::alloc::{AllocError, Global};

/// The byte order mark of a UTF-8 text.
const BYTE_ORDER_MARK: &[u8] = &[0xEF, 0xBB, 0xBF];

/// Returns the bytes without one mark at their start.
#[tactic(auto, unfolding(crate::specs::Transcript::without_mark))]
pub fn without_mark(bytes: &[u8]) -> &[u8]
    ensures { result.now ≡ without_mark bytes.now }
{
    match bytes.strip_prefix(BYTE_ORDER_MARK) {
        Some(rest) => rest,
        None => bytes,
    }
}

/// Returns the lines of a tune book. It returns an error if an allocation fails.
#[tactic(auto, unfolding(crate::specs::Transcript::book_lines))]
pub fn book_lines(alloc: Global, book: &[u8]) -> Result<Vec<Vec<u8>>, AllocError>
    ensures { IfOk result (λ lines. text_of lines ≡ book_lines book.now) }
{
    lines_of_text(alloc, without_mark(book))
}
