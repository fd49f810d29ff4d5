//! The edit that makes the text of a session another one: of the lines that differ, from the first to the last.

ghost use Rattle.std.specs.Prelude.{◌≡◌, ◌≢◌, ◌↔◌, ◌+◌, ◌-◌, ◌<◌, ◌≤◌, ◌++◌, [], ◌∷◌, IfOk, Some, drop, length, slice_get, take, true};
ghost use Rattle.abc_lines.specs.Text.{Splice, seen_lines, text_of};
ghost use Rattle.abc_lines.specs.TextLines.{lines_in, whole_lines};
ghost use Rattle.abc_lines.specs.declared.limits.TheConstants.{MOST_LINES};
ghost use Rattle.abc_live.specs.Edit.{splice_of};
ghost use Rattle.c_handle.specs.TextChange.{IsChange};

use abc_live::{Edit, Session};
use abc_text::cut_at;
use std::alloc::{AllocError, Global};

/// Returns the lines, and after them a last one without a line feed if it is not empty.
fn with_last<'a>(mut lines: Vec<&'a [u8]>, last: &'a [u8]) -> Result<Vec<&'a [u8]>, AllocError>
    ensures value { IfOk result (λ all. seen_lines all.items ≡ seen_lines lines.entry.items ++ whole_lines true (last.now ∷ [])) }
{
    if !last.is_empty() {
        lines.push(last)?;
    }
    Ok(lines)
}

/// Returns the lines of a text, borrowed.
fn borrowed_lines(alloc: Global, text: &[u8]) -> Result<Vec<&[u8]>, AllocError>
    ensures value { IfOk result (λ lines. seen_lines lines.items ≡ lines_in text.now) }
{
    let mut lines = Vec::new(alloc);
    let mut rest = text;
    'lines: loop {
        match cut_at(rest, b'\n') {
            Some((line, after)) => {
                lines.push(line)?;
                rest = after;
            }
            None => return with_last(lines, rest),
        }
    }
}

/// Returns copies of borrowed lines.
fn owned_lines(alloc: Global, lines: &[&[u8]]) -> Result<Vec<Vec<u8>>, AllocError>
    ensures value { IfOk result (λ copies. text_of copies ≡ seen_lines lines.now) }
{
    let mut copies = Vec::with_capacity(alloc, lines.len())?;
    for line in lines {
        copies.push(Vec::from_slice(alloc, line)?)?;
    }
    Ok(copies)
}

/// Whether a session has this line at an index.
fn has_line_at(session: &Session, index: usize, line: &[u8]) -> bool
    requires few { index < MOST_LINES }
    ensures exact { result ≡ true ↔ slice_get session.now.text index ≡ Some line.now }
{
    match session.line(index as u32 + 1) {
        Some(old) => old == line,
        None => false,
    }
}

/// Returns how many lines are the same at the front of both.
fn common_front(session: &Session, lines: &[&[u8]]) -> usize
    requires few { length lines.now ≤ MOST_LINES }
    ensures old { result ≤ length session.now.text }
    ensures new { result ≤ length lines.now }
    ensures same { take result session.now.text ≡ take result (seen_lines lines.now) }
    ensures first { result < length session.now.text → result < length lines.now
        → slice_get session.now.text result ≢ slice_get (seen_lines lines.now) result }
{
    let mut front = 0;
    while front < lines.len() && has_line_at(session, front, lines[front]) {
        front += 1;
    }
    front
}

/// Returns how many lines are the same at the end of both, after the lines at their front.
fn common_back(session: &Session, lines: &[&[u8]], front: usize) -> usize
    requires old { front ≤ length session.now.text }
    requires new { front ≤ length lines.now }
    ensures old { front + result ≤ length session.now.text }
    ensures new { front + result ≤ length lines.now }
    ensures same { drop (length session.now.text - result) session.now.text ≡ drop (length lines.now - result) (seen_lines lines.now) }
    ensures last { front + result < length session.now.text → front + result < length lines.now
        → slice_get session.now.text (length session.now.text - result - 1) ≢ slice_get (seen_lines lines.now) (length lines.now - result - 1) }
{
    let old = session.line_count() as usize;
    let new = lines.len();
    let most = old.min(new) - front;
    let mut back = 0;
    while back < most && has_line_at(session, old - 1 - back, lines[new - 1 - back]) {
        back += 1;
    }
    back
}

/// Returns the edit that makes the text of a session these lines.
fn edit_between(alloc: Global, session: &Session, lines: &[&[u8]]) -> Result<Edit, AllocError>
    requires few { length lines.now ≤ MOST_LINES }
    ensures value { IfOk result (λ edit. (s : Splice) × (splice_of edit ≡ Some s)
        × IsChange session.now.text (seen_lines lines.now) s) }
{
    let front = common_front(session, lines);
    let back = common_back(session, lines, front);
    let last = session.line_count() as usize - back;
    let came = owned_lines(alloc, &lines[front..lines.len() - back])?;
    let at = front as u32 + 1;
    if front == last {
        return Ok(Edit::Insert { at, lines: came });
    }
    Ok(Edit::Replace {
        from: at,
        to: last as u32,
        lines: came,
    })
}

/// Returns the edit that makes the text of a session this one.
pub(crate) fn edit_to(alloc: Global, session: &Session, text: &[u8]) -> Result<Edit, AllocError>
    requires few { length (lines_in text.now) ≤ MOST_LINES }
    ensures value { IfOk result (λ edit. (s : Splice) × (splice_of edit ≡ Some s)
        × IsChange session.now.text (lines_in text.now) s) }
{
    let lines = borrowed_lines(alloc, text)?;
    edit_between(alloc, session, &lines)
}
