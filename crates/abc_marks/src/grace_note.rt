//! Grace notes.

use crate::mark::Columns;
use abc_time::Grains;

/// The most grace notes before one note, chord or rest that count. Not in ABC 2.1.
pub const MOST_GRACE_NOTES: usize = 16;

const _: () = prove!(MOST_GRACE_NOTES == 16);

/// A grace note (ABC 2.1 section 4.12).
#[derive(Clone, Copy)]
pub struct GraceNote {
    /// How long it sounds if the note after it has the time.
    pub wanted: Grains,
    /// The key of MIDI before any transposition; None if MIDI has no key for it, and it is silent.
    pub key: Option<u8>,
    /// Where it is in its line.
    pub columns: Columns,
}
