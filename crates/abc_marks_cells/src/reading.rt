//! The marks that a line spells.

ghost use Rattle.std.specs.Prelude.{◌≡◌, ◌++◌, All, flat_map, option_copied, option_to_list, IfOk, IfSome, OnOk};
ghost use Rattle.abc_marks_cells.specs.Reading.{decoration_mark, harmony_mark, is_slur_dot, mark_of_kind, mark_spelled, marks_at, marks_written, written_at};
ghost use Rattle.abc_marks_cells.specs.WrittenMark.{IsPlacedMark, IsWrittenMark};

use crate::grace_notes::grace_mark;
use crate::token_text::{begins_with_byte, inside_of, text_of};
use crate::written_mark::{PlacedMark, WrittenMark};
use crate::written_marks::WrittenMarks;
use abc_marks_readers::{decoration_of, harmony_of};
use abc_scan::{Token, TokenKind};
use abc_text::Sequence;
use std::alloc::{AllocError, Global};

/// Returns the mark of the text between quotes, if it sets the harmony.
fn harmony_mark(inside: &[u8]) -> Option<WrittenMark>
    ensures value { result ≡ harmony_mark inside.now }
    ensures range { IfSome result IsWrittenMark }
{
    let harmony = harmony_of(inside)?;
    Some(WrittenMark::Harmony(harmony))
}

/// Returns the mark of a decoration.
fn decoration_mark(text: &[u8]) -> Option<WrittenMark>
    ensures value { result ≡ decoration_mark text.now }
    ensures range { IfSome result IsWrittenMark }
{
    let decoration = decoration_of(text)?;
    Some(WrittenMark::Decoration(decoration))
}

/// Returns whether a text is the dot of a dotted slur or tie, given the byte after it.
fn is_slur_dot(text: &[u8], next: Option<&u8>) -> bool
    ensures { result ≡ is_slur_dot text.now (option_copied next.entry) }
{
    match next {
        Some(byte) => text == b".".as_slice() && (*byte == b'(' || *byte == b'-'),
        None => false,
    }
}

/// Returns the mark that a token without effect spells, by its column, its text and the byte after it.
fn mark_spelled(
    alloc: Global,
    from: u32,
    text: &[u8],
    next: Option<&u8>,
) -> Result<Option<WrittenMark>, AllocError>
    ensures value { IfOk result (λ mark. mark ≡ mark_spelled from text.now (option_copied next.entry)) }
    ensures range { IfOk result (λ mark. IfSome mark IsWrittenMark) }
{
    if begins_with_byte(b'"', text) {
        return Ok(harmony_mark(inside_of(text)));
    }
    if begins_with_byte(b'{', text) {
        return grace_mark(alloc, from, inside_of(text));
    }
    if is_slur_dot(text, next) {
        return Ok(None);
    }
    Ok(decoration_mark(text))
}

/// Returns the mark that a token of a line spells, if it spells one.
pub(crate) fn written_at(
    alloc: Global,
    line: &[u8],
    token: &Token,
) -> Result<Option<WrittenMark>, AllocError>
    ensures value { IfOk result (λ mark. mark ≡ written_at line.now token.now) }
    ensures range { IfOk result (λ mark. IfSome mark IsWrittenMark) }
{
    match token.kind {
        TokenKind::BadByte => {
            if begins_with_byte(b'&', text_of(line, token)) {
                Ok(Some(WrittenMark::Overlay))
            } else {
                Ok(None)
            }
        }
        TokenKind::NoEffect => mark_spelled(
            alloc,
            token.from,
            text_of(line, token),
            line.get(token.to as usize),
        ),
        _ => Ok(None),
    }
}

/// Appends the mark that a token of a line spells.
fn push_written(
    alloc: Global,
    marks: &mut Sequence<PlacedMark>,
    line: &[u8],
    token: &Token,
) -> Result<(), AllocError>
    requires { All IsPlacedMark marks.old }
    ensures value { OnOk result (marks.new ≡ marks.old ++ marks_at line.now token.now) }
    ensures range { OnOk result (All IsPlacedMark marks.new) }
{
    if let Some(mark) = written_at(alloc, line, token)? {
        let from = token.from;
        marks.push(PlacedMark { from, mark })?;
    }
    Ok(())
}

/// Returns the marks that the tokens of a cell of a line spell. It returns an error if an allocation fails.
pub fn marks_written(alloc: Global, line: &[u8], cell: &[Token]) -> Result<WrittenMarks, AllocError>
    ensures { IfOk result (λ marks. marks ≡ marks_written line.now cell.now) }
{
    let mut marks = Sequence::new(alloc);
    let mut left = cell;
    while let [token, ahead @ ..] = left {
        push_written(alloc, &mut marks, line, token)?;
        left = ahead;
    }
    WrittenMarks::of(alloc, marks)
}
