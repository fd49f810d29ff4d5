//! The marks of cells.

use crate::chord_name::ChordName;
use crate::decoration::{Accent, Ornament, Shortening};
use crate::directive::PlayingDirective;
use crate::grace_note::GraceNote;
use abc_text::{Sequence, Shared};

/// Where something is in its line: columns, counted from 0.
#[derive(Clone, Copy, PartialEq, Eq)]
pub struct Columns {
    pub from: u32,
    /// The column after its last byte.
    pub to: u32,
}

/// What a mark is. That of a decoration or of grace notes is for the next note, chord or rest of its cell; there is one.
#[derive(Clone, Drop)]
pub enum MarkKind {
    /// The harmony from here on, with the columns of its quoted text.
    ChordName {
        name: ChordName,
        /// The half tones of the `transpose=` property that holds for the voice here.
        transpose: i64,
        columns: Columns,
    },
    /// No harmony from here on (`"N.C."`).
    NoChord,
    /// The bar begins again for the next layer of the voice (ABC 2.1 section 7.4).
    Overlay,
    Fermata,
    /// Grace notes between two braces, with the velocity that holds at the note after them.
    GraceNotes {
        notes: Shared<Sequence<GraceNote>>,
        velocity: u8,
    },
    /// An ornament of a note, with the keys of unmarked notes one letter higher and lower; None if MIDI has no such key.
    Ornament {
        ornament: Ornament,
        up: Option<u8>,
        down: Option<u8>,
    },
    /// The notes of the chord begin one after another.
    Arpeggio,
    Accent(Accent),
    Shortening(Shortening),
    Directive(PlayingDirective),
}

/// A mark of a cell.
#[derive(Clone, Drop)]
pub struct Mark {
    /// How many items of its cell are before it.
    pub before: usize,
    pub kind: MarkKind,
}
