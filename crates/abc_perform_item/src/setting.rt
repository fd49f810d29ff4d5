//! What holds where an item is performed.

use crate::performed::Place;

/// What holds where an item is performed.
#[derive(Clone, Copy)]
pub struct ItemSetting {
    /// The semitones by which its voice is moved.
    pub transpose: i8,
    /// Whether a fermata has an effect in its tune.
    pub holds: bool,
    /// The item.
    pub item: Place,
    /// The first of the marks since the note, chord or rest before it, by its index in the cell.
    pub first_mark: usize,
}
