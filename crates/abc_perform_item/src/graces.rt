//! The grace notes before a note, chord or rest.

ghost use Rattle.std.specs.Prelude.{◌≡◌, ◌+◌, ◌^◌, ◌<◌, [], length, All, OnOk, IfOk};
ghost use Rattle.abc_bars_items.specs.Velocity.{IsVelocity};
ghost use Rattle.abc_marks.specs.GraceNote.{IsGraceNote};
ghost use Rattle.abc_marks.specs.Mark.{IsMark};
ghost use Rattle.abc_perform_item.specs.Graces.{AreGraces, IsGrace, with_grace, with_notes, with_mark, with_marks};

use crate::performed::{Place, Source};
use abc_marks::{GraceNote, MOST_GRACE_NOTES, Mark, MarkKind};
use abc_text::Sequence;
use std::alloc::{AllocError, Global};

/// A grace note, with the velocity that holds at the note after it, and where it comes from.
#[derive(Clone, Copy)]
pub struct Grace {
    pub note: GraceNote,
    pub velocity: u8,
    pub source: Source,
}

/// Appends a grace note, if it is not one too many.
fn put_grace(graces: &mut Sequence<Grace>, grace: Grace) -> Result<(), AllocError>
    requires graces { AreGraces graces.old }
    requires grace { IsGrace grace }
    ensures value { OnOk result (graces.new ≡ with_grace graces.old grace) }
    ensures range { OnOk result (AreGraces graces.new) }
{
    if graces.len() < MOST_GRACE_NOTES {
        graces.push(grace)?;
    }
    Ok(())
}

/// Appends the notes between two braces, as far as they count.
fn put_notes(
    graces: &mut Sequence<Grace>,
    mark: Place,
    velocity: u8,
    notes: &[GraceNote],
) -> Result<(), AllocError>
    requires graces { AreGraces graces.old }
    requires velocity { IsVelocity velocity }
    requires notes { All IsGraceNote notes.now }
    ensures value { OnOk result (graces.new ≡ with_notes graces.old mark velocity 0 notes.now) }
    ensures range { OnOk result (AreGraces graces.new) }
{
    for (index, note) in notes.iter().enumerate() {
        let source = Source::GraceNote { mark, note: index };
        put_grace(
            graces,
            Grace {
                note: *note,
                velocity,
                source,
            },
        )?;
    }
    Ok(())
}

/// Appends the grace notes of a mark, as far as they count.
fn put_mark(graces: &mut Sequence<Grace>, place: Place, mark: &Mark) -> Result<(), AllocError>
    requires graces { AreGraces graces.old }
    requires mark { IsMark mark.now }
    ensures value { OnOk result (graces.new ≡ with_mark graces.old place mark.now) }
    ensures range { OnOk result (AreGraces graces.new) }
{
    match &mark.kind {
        MarkKind::GraceNotes { notes, velocity } => {
            put_notes(graces, place, *velocity, notes.get().as_slice())
        }
        _ => Ok(()),
    }
}

/// Returns the grace notes of marks, at most as many as count. The first mark has an index in its cell.
pub(crate) fn graces_of(
    alloc: Global,
    cell: usize,
    first: usize,
    marks: &[Mark],
) -> Result<Sequence<Grace>, AllocError>
    requires marks { All IsMark marks.now }
    requires indexes { first + length marks.now < 2 ^ 64 }
    ensures value { IfOk result (λ graces. graces ≡ with_marks [] cell first marks.now) }
    ensures range { IfOk result AreGraces }
{
    let mut graces = Sequence::new(alloc);
    for (index, mark) in marks.iter().enumerate() {
        let place = Place {
            cell,
            index: first + index,
        };
        put_mark(&mut graces, place, mark)?;
    }
    Ok(graces)
}
