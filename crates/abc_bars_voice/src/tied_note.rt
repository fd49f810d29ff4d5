//! Tied notes.

use abc_scan::Letter;

/// A note of a voice's last note or chord that is tied, as it was written (ABC 2.1 section 4.11).
#[derive(Clone, Copy, PartialEq, Eq)]
pub struct TiedNote {
    /// Octaves above that of the capital letters.
    pub octave: i32,
    pub letter: Letter,
    /// By how many semitones it was altered.
    pub alteration: i8,
}

impl Default for TiedNote {
    fn default() -> Self {
        TiedNote {
            letter: Letter::C,
            octave: 0,
            alteration: 0,
        }
    }
}
