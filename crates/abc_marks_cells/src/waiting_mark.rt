//! Marks that wait for the note, chord or rest after them.

ghost use Rattle.std.specs.Prelude.{◌≡◌, ◌≤◌, ◌++◌, All, map, IfOk, IfSome, OnOk, length};
ghost use Rattle.abc_marks.specs.GraceNote.{AreGraceNotes, IsGraceNote};
ghost use Rattle.abc_marks.specs.Mark.{IsMarkKind};
ghost use Rattle.abc_marks_cells.specs.WaitingMark.{IsWaitingKind, decoration_kind, grace_note, harmony_kind, made_before, made_without, ornament_kind, waiting_kind};
ghost use Rattle.abc_marks_cells.specs.WrittenMark.{IsWrittenMark};
ghost use Rattle.abc_marks_readers.specs.Harmony.{IsHarmony};

use crate::grace_length::wanted_length;
use crate::keys::untied_key;
use crate::neighbour::{key_above, key_below};
use crate::written_mark::{WrittenGrace, WrittenMark};
use abc_bars_items::velocity_of;
use abc_bars_voice::VoiceState;
use abc_marks::{Columns, GraceNote, MarkKind, Ornament};
use abc_marks_readers::{Decoration, Harmony};
use abc_scan::TokenKind;
use abc_text::{Sequence, Shared};
use std::alloc::{AllocError, Global};

/// A mark as far as its own place decides it.
#[derive(Drop)]
pub enum WaitingKind {
    /// Heard whatever comes after it.
    Free(MarkKind),
    /// Heard if a note, chord or rest comes after it in its cell.
    OfNext(MarkKind),
    GraceNotes(Shared<Sequence<GraceNote>>),
    Ornament(Ornament),
}

/// A mark that waits, and how many items of its cell are before it.
#[derive(Drop)]
pub struct WaitingMark {
    pub before: usize,
    pub kind: WaitingKind,
}

/// Returns a grace note as it sounds at a place.
fn grace_note(state: &VoiceState, written: WrittenGrace) -> GraceNote
    ensures value { result ≡ grace_note state.now written }
    ensures range { IsGraceNote result }
{
    GraceNote {
        wanted: wanted_length(state.unit, written.note.length),
        key: untied_key(state, written.note),
        columns: written.columns,
    }
}

/// Returns grace notes as they sound at a place.
fn grace_notes(
    alloc: Global,
    state: &VoiceState,
    graces: &[WrittenGrace],
) -> Result<Sequence<GraceNote>, AllocError>
    ensures value { IfOk result (λ notes. notes ≡ map (grace_note state.now) graces.now) }
    ensures range { IfOk result (λ notes. All IsGraceNote notes) }
{
    let mut notes = Sequence::new(alloc);
    for written in graces {
        notes.push(grace_note(state, *written))?;
    }
    Ok(notes)
}

/// Returns what a harmony is at a place, whose quoted text has these columns.
fn harmony_kind(state: &VoiceState, columns: Columns, harmony: Harmony) -> MarkKind
    requires { IsHarmony harmony }
    ensures value { result ≡ harmony_kind state.now columns harmony }
    ensures range { IsMarkKind result }
{
    match harmony {
        Harmony::Chord(name) => MarkKind::ChordName {
            name,
            transpose: state.shift.transpose,
            columns,
        },
        Harmony::NoChord => MarkKind::NoChord,
    }
}

/// Returns what a decoration waits for.
fn decoration_kind(decoration: Decoration) -> WaitingKind
    ensures value { result ≡ decoration_kind decoration }
    ensures range { IsWaitingKind result }
{
    match decoration {
        Decoration::Fermata => WaitingKind::OfNext(MarkKind::Fermata),
        Decoration::Ornament(ornament) => WaitingKind::Ornament(ornament),
        Decoration::Arpeggio => WaitingKind::OfNext(MarkKind::Arpeggio),
        Decoration::Accent(accent) => WaitingKind::OfNext(MarkKind::Accent(accent)),
        Decoration::Shortening(shortening) => WaitingKind::OfNext(MarkKind::Shortening(shortening)),
    }
}

/// Returns what a mark is as far as its own place decides it, by the state there and the columns of its token.
pub(crate) fn waiting_kind(
    alloc: Global,
    state: &VoiceState,
    columns: Columns,
    written: &WrittenMark,
) -> Result<WaitingKind, AllocError>
    requires { IsWrittenMark written.now }
    ensures value { IfOk result (λ kind. kind ≡ waiting_kind state.now columns written.now) }
    ensures range { IfOk result (λ kind. IsWaitingKind kind) }
{
    match written {
        WrittenMark::Harmony(harmony) => {
            Ok(WaitingKind::Free(harmony_kind(state, columns, *harmony)))
        }
        WrittenMark::Overlay => Ok(WaitingKind::Free(MarkKind::Overlay)),
        WrittenMark::GraceNotes(graces) => {
            let notes = grace_notes(alloc, state, graces.get().as_slice())?;
            let notes = Shared::new(alloc, notes)?;
            Ok(WaitingKind::GraceNotes(notes))
        }
        WrittenMark::Decoration(decoration) => Ok(decoration_kind(*decoration)),
    }
}

/// Returns what an ornament is before a token of this kind: one of a note alone.
fn ornament_kind(state: &VoiceState, next: &TokenKind, ornament: Ornament) -> Option<MarkKind>
    ensures value { result ≡ ornament_kind state.now next.now ornament }
    ensures range { IfSome result IsMarkKind }
{
    match next {
        TokenKind::Note(note) => Some(MarkKind::Ornament {
            ornament,
            up: key_above(state, *note),
            down: key_below(state, *note),
        }),
        _ => None,
    }
}

/// Returns what a waiting mark is before a note, chord or rest, by the state there.
pub(crate) fn made_before(
    state: &VoiceState,
    next: &TokenKind,
    waiting: &WaitingKind,
) -> Result<Option<MarkKind>, AllocError>
    requires { IsWaitingKind waiting.now }
    ensures value { IfOk result (λ kind. kind ≡ made_before state.now next.now waiting.now) }
    ensures range { IfOk result (λ kind. IfSome kind IsMarkKind) }
{
    match waiting {
        WaitingKind::Free(kind) | WaitingKind::OfNext(kind) => {
            let kind = kind.clone()?;
            Ok(Some(kind))
        }
        WaitingKind::GraceNotes(notes) => {
            let notes = notes.share()?;
            Ok(Some(MarkKind::GraceNotes {
                notes,
                velocity: velocity_of(state.dynamic),
            }))
        }
        WaitingKind::Ornament(ornament) => Ok(ornament_kind(state, next, *ornament)),
    }
}

/// Returns what a waiting mark is at the end of its cell.
pub(crate) fn made_without(waiting: &WaitingKind) -> Result<Option<MarkKind>, AllocError>
    requires { IsWaitingKind waiting.now }
    ensures value { IfOk result (λ kind. kind ≡ made_without waiting.now) }
    ensures range { IfOk result (λ kind. IfSome kind IsMarkKind) }
{
    match waiting {
        WaitingKind::Free(kind) => {
            let kind = kind.clone()?;
            Ok(Some(kind))
        }
        WaitingKind::OfNext(_) | WaitingKind::GraceNotes(_) | WaitingKind::Ornament(_) => Ok(None),
    }
}
