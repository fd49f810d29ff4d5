//! The storage of a list with a gap: no places, which takes no memory, or a row of them in a block of memory.

ghost use Rattle.std.specs.Prelude.{◌≡◌, ◌+◌, ◌-◌, ◌<◌, ◌≤◌, ◌^◌, [], length, IfOk, IsOk, option_copied, slice_get, Some};
ghost use Rattle.std.specs.List.{insert, remove};
ghost use Rattle.abc_lines.specs.Block.{gap_block, block_view, IsSound};

use crate::gap_row::GapRow;
use std::alloc::{AllocError, Global};
use std::marker::Model;

/// Places for items, with all the empty ones after the first `gap` items; none without a row. Only `end`
/// drops it.
pub(crate) struct Block<T> {
    row: Option<GapRow<T>>,
}

impl<T> Model for Block<T> {
    ghost use Rattle.abc_lines.specs.Block.{BlockView, block_view, IsSound};

    ghost Value = { BlockView T };

    ghost view = { λ b. block_view b.row };

    ghost invariant = { λ b. IsSound b.row };
}

impl<T> Block<T> {
    /// Returns `room` empty places.
    pub(crate) fn with_capacity(alloc: Global, room: usize) -> Result<Block<T>, AllocError>
        ensures empty { IfOk result (λ block. block ≡ gap_block [] 0 room) }
        ensures succeeds { room ≡ 0 → IsOk result }
    {
        if room == 0 {
            return Ok(Block { row: None });
        }
        Ok(Block {
            row: Some(GapRow::with_capacity(alloc, room)?),
        })
    }

    /// How many items there are.
    pub(crate) fn len(&self) -> usize
        ensures value { result ≡ length self.now.items }
        ensures small { length self.now.items + self.now.room < 2 ^ 63 }
        ensures inside { self.now.gap ≤ length self.now.items }
    {
        match &self.row {
            None => 0,
            Some(row) => row.len(),
        }
    }

    /// How many places are empty.
    pub(crate) fn room(&self) -> usize
        ensures { result ≡ self.now.room }
    {
        match &self.row {
            None => 0,
            Some(row) => row.room(),
        }
    }

    /// How many items precede the gap.
    pub(crate) fn gap(&self) -> usize
        ensures value { result ≡ self.now.gap }
        ensures inside { self.now.gap ≤ length self.now.items }
    {
        match &self.row {
            None => 0,
            Some(row) => row.gap(),
        }
    }

    /// The item at index `i`.
    pub(crate) fn get(&self, i: usize) -> Option<&T>
        ensures { option_copied result ≡ slice_get self.now.items i }
    {
        match &self.row {
            None => None,
            Some(row) => row.get(i),
        }
    }

    /// Moves the gap to a place.
    pub(crate) fn move_gap(&mut self, to: usize)
        requires { to ≤ length self.old.items }
        ensures { self.new ≡ gap_block self.old.items to self.old.room }
    {
        match &mut self.row {
            None => {}
            Some(row) => row.move_gap(to),
        }
    }

    /// Puts an item before the gap.
    pub(crate) fn put(&mut self, item: T)
        requires { 0 < self.old.room }
        ensures put { self.new ≡ gap_block (insert self.old.items self.old.gap item) (self.old.gap + 1) (self.old.room - 1) }
        ensures inside { self.old.gap ≤ length self.old.items }
    {
        match &mut self.row {
            None => unreachable!(),
            Some(row) => row.put(item),
        }
    }

    /// Takes out the item after the gap.
    pub(crate) fn take_next(&mut self) -> T
        requires { self.old.gap < length self.old.items }
        ensures item { slice_get self.old.items self.old.gap ≡ Some result }
        ensures left { self.new ≡ gap_block (remove self.old.items self.old.gap) self.old.gap (self.old.room + 1) }
    {
        match &mut self.row {
            None => unreachable!(),
            Some(row) => row.take_next(),
        }
    }

    /// Frees the memory of empty places.
    pub(crate) fn end(self)
        requires { self.items ≡ [] }
    {
        let Block { row } = self;
        match row {
            None => {}
            Some(row) => row.destroy_empty(),
        }
    }
}
