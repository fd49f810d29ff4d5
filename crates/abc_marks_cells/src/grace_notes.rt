//! The notes between two braces.

ghost use Rattle.std.specs.Prelude.{◌≡◌, ◌≤◌, ◌+◌, ◌++◌, length, IfOk, IfSome, OnOk};
ghost use Rattle.abc_scan.specs.Chord.{parts_of};
ghost use Rattle.abc_marks.specs.declared.grace_note.TheConstants.{MOST_GRACE_NOTES as MOST};
ghost use Rattle.abc_marks_cells.specs.GraceNotes.{grace_at, grace_mark, graces_in, with_grace};
ghost use Rattle.abc_marks_cells.specs.WrittenMark.{IsWrittenMark};

use crate::written_mark::{WrittenGrace, WrittenMark};
use abc_marks::{Columns, MOST_GRACE_NOTES};
use abc_scan::{ChordPart, ChordPartKind, parts_of};
use abc_text::{Sequence, Shared};
use std::alloc::{AllocError, Global};

/// A text between braces that has more bytes is refused as out of memory. No line is so long.
const MOST_BYTES: usize = 0x7FFF_FFFE;

/// Returns a place after another one. A sum that a `u32` cannot count is refused as out of memory.
fn place_after(from: u32, inside: u32) -> Result<u32, AllocError>
    ensures { IfOk result (λ place. place ≡ from + inside) }
{
    from.checked_add(inside).ok_or(AllocError)
}

/// Appends a part between braces that begin at a column, if it is a note.
fn push_grace(
    graces: &mut Sequence<WrittenGrace>,
    from: u32,
    part: &ChordPart,
) -> Result<(), AllocError>
    ensures value { OnOk result (graces.new ≡ graces.old ++ grace_at from part.now) }
    ensures few { OnOk result (length graces.new ≤ length graces.old + 1) }
{
    if let ChordPartKind::Note(note) = part.kind {
        let columns = Columns {
            from: place_after(from, part.from)?,
            to: place_after(from, part.to)?,
        };
        graces.push(WrittenGrace { note, columns })?;
    }
    Ok(())
}

/// Appends a part if it is a note and no more than count.
fn add_grace(
    graces: &mut Sequence<WrittenGrace>,
    from: u32,
    part: &ChordPart,
) -> Result<(), AllocError>
    requires { length graces.old ≤ MOST }
    ensures value { OnOk result (graces.new ≡ with_grace from graces.old part.now) }
    ensures few { OnOk result (length graces.new ≤ MOST) }
{
    if graces.len() < MOST_GRACE_NOTES {
        push_grace(graces, from, part)?;
    }
    Ok(())
}

/// Returns the notes among the parts between braces that begin at a column.
fn graces_in(
    alloc: Global,
    from: u32,
    parts: &[ChordPart],
) -> Result<Sequence<WrittenGrace>, AllocError>
    ensures value { IfOk result (λ graces. graces ≡ graces_in from parts.now) }
    ensures few { IfOk result (λ graces. length graces ≤ MOST) }
{
    let mut graces = Sequence::new(alloc);
    let mut left = parts;
    while let [part, ahead @ ..] = left {
        add_grace(&mut graces, from, part)?;
        left = ahead;
    }
    Ok(graces)
}

/// Returns the mark of a text between braces that begin at a column, if it has a note.
pub(crate) fn grace_mark(
    alloc: Global,
    from: u32,
    inside: &[u8],
) -> Result<Option<WrittenMark>, AllocError>
    ensures value { IfOk result (λ mark. mark ≡ grace_mark from inside.now) }
    ensures range { IfOk result (λ mark. IfSome mark IsWrittenMark) }
{
    if inside.len() >= MOST_BYTES {
        return Err(AllocError);
    }
    let parts = parts_of(alloc, inside)?;
    let graces = graces_in(alloc, from, parts.as_slice())?;
    if graces.is_empty() {
        return Ok(None);
    }
    let graces = Shared::new(alloc, graces)?;
    Ok(Some(WrittenMark::GraceNotes(graces)))
}
