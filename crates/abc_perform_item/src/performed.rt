//! Performed items, and what they come from.

use abc_bars_items::Item;

/// An item or a mark of a tune: the cell that gives it, and its place among those of that cell, both counted from 0.
#[derive(Clone, Copy, Debug, PartialEq, Eq, Drop)]
pub struct Place {
    pub cell: usize,
    pub index: usize,
}

/// What a performed item comes from.
#[derive(Clone, Copy, Debug, PartialEq, Eq, Drop)]
pub enum Source {
    /// An item. Each tone of the performed item comes from the tone in the same place of that one.
    Item(Place),
    /// A note of a mark of grace notes, counted from 0.
    GraceNote { mark: Place, note: usize },
    /// A chord name.
    ChordName(Place),
    /// Nothing in the text.
    Nothing,
}

/// An item that is performed.
#[derive(Drop)]
pub struct Performed {
    pub item: Item,
    pub source: Source,
}
