//! How large a text may be. Not in ABC 2.1. The header of C, the packages of Python
//! and JavaScript, and the documents repeat these numbers.

ghost use Rattle.std.specs.Prelude.{◌≡◌, ◌≤◌, ◌<◌, ◌+◌, ◌^◌, true, [], ◌∷◌, length};
ghost use Rattle.std.specs.List.{list_all};
ghost use Rattle.abc_text.specs.Cut.{HasNoByte};
ghost use Rattle.abc_lines.specs.Limits.{limit_error};
ghost use Rattle.abc_lines.specs.Text.{is_line};
ghost use Rattle.abc_lines.specs.TextLines.{lines_in, whole_lines};

use crate::edit_error::EditError;
use abc_text::cut_at;

/// The most bytes of a line: a longer one is refused as `BadLine`. Not in ABC 2.1.
pub const LONGEST_LINE: usize = 65_535;

/// The most lines of a text: an edit that would leave more is refused as `TooLarge`. Not in ABC 2.1.
pub const MOST_LINES: usize = 1_048_576;

const _: () = prove!(LONGEST_LINE == (1 << 16) - 1);

const _: () = prove!(MOST_LINES == 1 << 20);

/// Returns why a text of this many lines is refused, if it is.
#[tactic(auto, unfolding(crate::specs::Limits::limit_error))]
fn error_of_count(count: usize) -> Option<EditError>
    ensures value { result ≡ limit_error true count }
{
    if count > MOST_LINES {
        Some(EditError::TooLarge)
    } else {
        None
    }
}

/// Returns why a last line without a line feed is refused after these lines, if it is.
fn error_of_last(count: usize, last: &[u8]) -> Option<EditError>
    requires clean { HasNoByte 10 last.now }
    requires room { count + 1 < 2 ^ 64 }
    ensures value { let lines = whole_lines true (last.now ∷ []) in
        result ≡ limit_error (list_all is_line lines) (count + length lines) }
{
    if last.is_empty() {
        return error_of_count(count);
    }
    if last.len() > LONGEST_LINE {
        return Some(EditError::BadLine);
    }
    error_of_count(count + 1)
}

/// Returns why the lines of a text are refused beside this many other lines, if they are. It allocates nothing, so callers can
/// ask for it after an allocation failed.
pub fn limit_error(others: usize, text: &[u8]) -> Option<EditError>
    requires few { others ≤ MOST_LINES }
    ensures value { let lines = lines_in text.now in result ≡ limit_error (list_all is_line lines) (others + length lines) }
{
    let mut rest = text;
    let mut count = others;
    'lines: loop {
        match cut_at(rest, b'\n') {
            Some((line, after)) => {
                if line.len() > LONGEST_LINE {
                    return Some(EditError::BadLine);
                }
                count += 1;
                rest = after;
            }
            None => return error_of_last(count, rest),
        }
    }
}
