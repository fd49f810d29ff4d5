//! A list in one block of memory, with a gap of empty places in it: items come and go at the gap, which moves.

ghost use Rattle.std.specs.Prelude.{◌≡◌, ◌+◌, ◌-◌, ◌<◌, ◌≤◌, ◌^◌, [], length, Some, IfOk, option_copied, slice_get};
ghost use Rattle.std.specs.List.{insert, remove};
ghost use Rattle.abc_lines.specs.GapRow.{IsGapped, Becomes, items_of, place_of};

use crate::places::{Claim, Places, allocate, deallocate};
use std::alloc::{AllocError, Global};
use std_alloc::room::may_hold;

/// A list of `size` items in a block of `capacity` places, with all the empty places after the first `at` items.
/// Only `destroy_empty` drops it.
pub(crate) struct GapRow<T> {
    places: Places<T>,
    claim: Claim<T, Global>,
    alloc: Global,
    capacity: usize,
    size: usize,
    at: usize,
}

impl<T> GapRow<T> {
    /// An empty list with room for `room` items.
    pub(crate) fn with_capacity(alloc: Global, room: usize) -> Result<GapRow<T>, AllocError>
        ensures { IfOk result (λ row. IsGapped row × (items_of row ≡ []) × (row.size ≡ 0) × (row.capacity ≡ room)) }
    {
        if !may_hold::<T>(room) {
            return Err(AllocError);
        }
        let (places, claim) = allocate(&alloc, room)?;
        Ok(GapRow {
            places,
            claim,
            alloc,
            capacity: room,
            size: 0,
            at: 0,
        })
    }

    /// How many items there are.
    pub(crate) fn len(&self) -> usize
        requires { IsGapped self.now }
        ensures value { result ≡ length (items_of self.now) }
        ensures inside { self.now.at ≤ result }
        ensures places { result + (self.now.capacity - self.now.size) < 2 ^ 63 }
    {
        self.size
    }

    /// How many places are empty.
    pub(crate) fn room(&self) -> usize
        requires { IsGapped self.now }
        ensures { result ≡ self.now.capacity - self.now.size }
    {
        self.capacity - self.size
    }

    /// How many items precede the gap.
    pub(crate) fn gap(&self) -> usize
        requires { IsGapped self.now }
        ensures value { result ≡ self.now.at }
        ensures inside { self.now.at ≤ length (items_of self.now) }
    {
        self.at
    }

    /// The item at index `index`.
    pub(crate) fn get(&self, index: usize) -> Option<&T>
        requires { IsGapped self.now }
        ensures { option_copied result ≡ slice_get (items_of self.now) index }
    {
        if self.size <= index {
            return None;
        }
        Some(self.places.get(self.place(index)))
    }

    /// The place of the item at index `index`.
    fn place(&self, index: usize) -> usize
        requires gapped { IsGapped self.now }
        requires inside { index < self.now.size }
        ensures { result ≡ place_of self.now index }
    {
        if index < self.at {
            return index;
        }
        index + (self.capacity - self.size)
    }

    /// Moves the last item before the gap to its other side.
    pub(crate) fn step_back(&mut self)
        requires gapped { IsGapped self.old }
        requires before { 0 < self.old.at }
        ensures { Becomes self.old self.new (items_of self.old) (self.old.at - 1) self.old.size }
    {
        let from = self.at - 1;
        let item = self.places.read(from);
        self.places.write(from + (self.capacity - self.size), item);
        self.at = from;
    }

    /// Moves the first item after the gap to its other side.
    pub(crate) fn step_on(&mut self)
        requires gapped { IsGapped self.old }
        requires following { self.old.at < self.old.size }
        ensures { Becomes self.old self.new (items_of self.old) (self.old.at + 1) self.old.size }
    {
        let item = self.places.read(self.at + (self.capacity - self.size));
        self.places.write(self.at, item);
        self.at += 1;
    }

    /// Moves the gap to index `index`.
    pub(crate) fn move_gap(&mut self, index: usize)
        requires gapped { IsGapped self.old }
        requires within { index ≤ self.old.size }
        ensures { Becomes self.old self.new (items_of self.old) index self.old.size }
    {
        while index < self.at {
            self.step_back();
        }
        self.follow_gap(index);
    }

    /// Moves the gap on to index `index`.
    fn follow_gap(&mut self, index: usize)
        requires gapped { IsGapped self.old }
        requires before { self.old.at ≤ index }
        requires within { index ≤ self.old.size }
        ensures { Becomes self.old self.new (items_of self.old) index self.old.size }
    {
        while self.at < index {
            self.step_on();
        }
    }

    /// Puts an item into the gap, after the items before it.
    pub(crate) fn put(&mut self, item: T)
        requires gapped { IsGapped self.old }
        requires room { self.old.size < self.old.capacity }
        ensures put { Becomes self.old self.new (insert (items_of self.old) self.old.at item)
            (self.old.at + 1) (self.old.size + 1) }
        ensures inside { self.old.at ≤ length (items_of self.old) }
    {
        self.places.write(self.at, item);
        self.at += 1;
        self.size += 1;
    }

    /// Takes the item after the gap.
    pub(crate) fn take_next(&mut self) -> T
        requires gapped { IsGapped self.old }
        requires following { self.old.at < self.old.size }
        ensures taken { slice_get (items_of self.old) self.old.at ≡ Some result }
        ensures left { Becomes self.old self.new (remove (items_of self.old) self.old.at) self.old.at (self.old.size - 1) }
    {
        let item = self.places.read(self.at + (self.capacity - self.size));
        self.size -= 1;
        item
    }

    /// Frees the memory of an empty list.
    pub(crate) fn destroy_empty(self)
        requires gapped { IsGapped self }
        requires empty { self.size ≡ 0 }
    {
        let GapRow {
            places,
            claim,
            alloc,
            capacity,
            size: _,
            at: _,
        } = self;
        deallocate(&alloc, places, capacity, claim);
    }
}
