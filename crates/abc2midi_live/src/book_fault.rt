//! Whether a tune book is a text.

ghost use Rattle.std.specs.Prelude.{◌≡◌, []};
ghost use Rattle.std.specs.Result.{result_err};
ghost use Rattle.abc_lines.specs.Edits.{edited, insertion};
ghost use Rattle.abc2midi_live.specs.Transcript.{book_lines};

use crate::book_lines::without_mark;
use abc_lines::{EditError, limit_error};

/// Returns why a run refuses a tune book, if it does.
pub fn fault_of_book(book: &[u8]) -> Option<EditError>
    ensures { result ≡ result_err (edited [] (insertion 1 (book_lines book.now))) }
{
    limit_error(0, without_mark(book))
}
