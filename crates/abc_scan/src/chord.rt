//! Chords.

ghost use Rattle.std.specs.Prelude.{◌≡◌, ◌<◌, ◌+◌, ◌^◌, drop, length, IfOk, IfSome, false};
ghost use Rattle.abc_scan.specs.Front.{IsFront};
ghost use Rattle.abc_scan.specs.Chord.{part_reading_at, part_reader, parts_of, chord_at};
ghost use Rattle.abc_scan.specs.KnownAbsent.{IsKnownAbsent};
ghost use Rattle.abc_scan.specs.Cutting.{next};

use crate::chord_part::{ChordPart, ChordPartKind};
use crate::delimited::delimited_at;
use crate::frame::frame_at;
use crate::known_absent::KnownAbsent;
use crate::length::WrittenLength;
use crate::no_effect::extra_space_at;
use crate::note::note_at;
use crate::spanned::Spanned;
use crate::start::{Start, start_of};
use abc_text::Sequence;
use std::alloc::{AllocError, Global};

/// The notes between `[` and `]`, which sound together (ABC 2.1 section 4.17).
#[derive(Clone, Drop)]
pub struct Chord {
    /// The parts between the brackets, in order.
    pub parts: Sequence<ChordPart>,
    /// The length after the closing bracket.
    pub length: WrittenLength,
}

/// The part at the front of a text, and its size in bytes.
#[tactic(auto, unfolding(crate::specs::Chord::part_reading_at))]
fn part_reading_at(text: &[u8], absent: &mut KnownAbsent) -> Option<(ChordPartKind, usize)>
    requires known { IsKnownAbsent absent.old (drop 1 text.now) }
    requires short { length text.now < 2 ^ 31 }
    ensures value { result ≡ part_reading_at false text.now }
    ensures front { IfSome result (λ r. IsFront text.now r.1) }
    ensures absent { IsKnownAbsent absent.new (drop 1 text.now) }
{
    match start_of(text) {
        Start::Note => {
            let (note, size) = note_at(text)?;
            Some((ChordPartKind::Note(note), size))
        }
        Start::Tie => Some((ChordPartKind::Tie, 1)),
        Start::Blank | Start::Single | Start::Parenthesis => Some((ChordPartKind::NoEffect, 1)),
        Start::Delimited => {
            let size = delimited_at(text, absent)?;
            Some((ChordPartKind::NoEffect, size))
        }
        Start::Space => {
            let size = extra_space_at(text)?;
            Some((ChordPartKind::NoEffect, size))
        }
        _ => None,
    }
}

/// The first part of a text, and its size in bytes.
fn next_part(text: &[u8], absent: &mut KnownAbsent) -> (ChordPartKind, usize)
    requires some { 0 < length text.now }
    requires known { IsKnownAbsent absent.old (drop 1 text.now) }
    requires short { length text.now < 2 ^ 31 }
    ensures value { result ≡ next part_reader false text.now }
    ensures front { IsFront text.now result.1 }
    ensures absent { IsKnownAbsent absent.new (drop 1 text.now) }
{
    part_reading_at(text, absent).unwrap_or((ChordPartKind::BadByte, 1))
}

/// The parts that the inside of a chord is cut into (ABC 2.1 section 4.17). Their places count from the chord's own bracket. It
/// returns an error if an allocation fails.
#[tactic(auto, using(crate::proofs::Closings::absent_next))]
pub fn parts_of(alloc: Global, text: &[u8]) -> Result<Sequence<ChordPart>, AllocError>
    requires { length text.now + 1 < 2 ^ 31 }
    ensures { IfOk result (λ parts. parts ≡ parts_of text.now) }
{
    let mut parts = Vec::new(alloc);
    let mut absent = KnownAbsent::none();
    let mut at = 0;
    while at < text.len() {
        let (kind, size) = next_part(&text[at..], &mut absent);
        parts.push(Spanned {
            kind,
            from: (1 + at) as u32,
            to: (1 + at + size) as u32,
        })?;
        at += size;
    }
    parts.shrink_to_fit();
    Ok(Sequence::from(parts))
}

/// The chord at the front of a text, and its size in bytes.
#[tactic(auto, unfolding(crate::specs::Chord::chord_at))]
pub(crate) fn chord_at(alloc: Global, text: &[u8]) -> Result<Option<(Chord, usize)>, AllocError>
    requires { length text.now < 2 ^ 31 }
    ensures value { IfOk result (λ chord. chord ≡ chord_at text.now) }
    ensures front { IfOk result (λ chord. IfSome chord (λ r. IsFront text.now r.1)) }
{
    let Some((frame, size)) = frame_at(text) else {
        return Ok(None);
    };
    let parts = parts_of(alloc, &text[1..1 + frame.inside])?;
    let length = frame.length;
    Ok(Some((Chord { parts, length }, size)))
}
