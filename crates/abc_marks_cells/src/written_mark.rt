//! Marks as lines spell them.

use abc_marks::Columns;
use abc_marks_readers::{Decoration, Harmony};
use abc_scan::Note;
use abc_text::{Sequence, Shared};

/// A grace note as it is written (ABC 2.1 section 4.12), and where it is in its line.
#[derive(Clone, Copy)]
pub struct WrittenGrace {
    pub note: Note,
    pub columns: Columns,
}

/// A mark as a line spells it, before the state of its voice is known.
#[derive(Clone, Drop)]
pub enum WrittenMark {
    /// A quoted text that sets the harmony.
    Harmony(Harmony),
    /// The bar begins again for the next layer (ABC 2.1 section 7.4).
    Overlay,
    /// The notes between two braces.
    GraceNotes(Shared<Sequence<WrittenGrace>>),
    Decoration(Decoration),
}

/// A mark with the column of its token, counted from 0.
#[derive(Clone, Drop)]
pub struct PlacedMark {
    pub from: u32,
    pub mark: WrittenMark,
}
