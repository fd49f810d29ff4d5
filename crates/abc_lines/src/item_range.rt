//! Ranges of items, of lines or of tunes, and what replaces them.

/// The items `from..to` of a list, counted from 0.
#[derive(Clone, Copy, Debug)]
pub struct ItemRange {
    pub from: usize,
    pub to: usize,
}

/// The items `from..to` of a list, counted from 0, which `came` others replace.
#[derive(Clone, Copy, Debug)]
pub struct Replacement {
    pub from: usize,
    pub to: usize,
    pub came: usize,
}
