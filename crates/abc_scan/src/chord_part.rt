//! The parts of a chord.

use crate::note::Note;
use crate::spanned::Spanned;

/// The kind of a part of a chord.
#[derive(Clone, Copy)]
pub enum ChordPartKind {
    Note(Note),
    Tie,
    /// A blank, quoted text, a decoration, a grace group, an extra space or a byte without effect.
    NoEffect,
    /// A byte that begins none of these.
    BadByte,
}

/// A part of a chord, and its place, counted from the chord's first byte.
pub type ChordPart = Spanned<ChordPartKind>;
