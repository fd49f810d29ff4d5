//! A list with a gap: a change at the place of the last one moves nothing.

ghost use Rattle.std.specs.Prelude.{◌≡◌, ◌+◌, ◌-◌, ◌<◌, ◌≤◌, ◌^◌, ◌++◌, ◌∷◌, [], length, IfOk, IsOk, option_copied, slice_get};
ghost use Rattle.std.specs.Prelude.{Some};
ghost use Rattle.std.specs.List.{insert, remove};
ghost use Rattle.abc_lines.specs.Block.{gap_block};
ghost use Rattle.abc_lines.specs.GapList.{gapped_list, distance, add_to_tally, replaced_run};

use crate::block::Block;
use std::alloc::{AllocError, Global};
use std::marker::Model;
use std::mem::replace;

/// Items in order with spare room among them, the gap. A list allocates when it is created, and in a splice for which its
/// room is too small. An item moves if the gap passes over it or if the list gets a larger block. Contracts see the items,
/// the place of the gap, the room and how many places the gap has moved.
pub struct GapList<T> {
    block: Block<T>,
    alloc: Global,
    moved: u64,
}

impl<T> Model for GapList<T> {
    ghost use Rattle.abc_lines.specs.GapList.{GapListView, gapped_list};

    ghost Value = { GapListView T };

    ghost view = { λ l. gapped_list l.block.items l.block.gap l.block.room l.moved };
}

impl<T> GapList<T> {
    /// Returns a list with no items, and room for `room` items. It returns an error if the allocation of that room fails;
    /// without room it allocates nothing.
    pub fn with_room(alloc: Global, room: usize) -> Result<GapList<T>, AllocError>
        ensures empty { IfOk result (λ list. list ≡ gapped_list [] 0 room 0) }
        ensures succeeds { room ≡ 0 → IsOk result }
    {
        Ok(GapList {
            block: Block::with_capacity(alloc, room)?,
            alloc,
            moved: 0,
        })
    }

    /// The allocator of the list.
    pub fn allocator(&self) -> Global {
        self.alloc
    }

    /// How many items there are.
    pub fn len(&self) -> usize
        ensures value { result ≡ length self.now.items }
        ensures small { length self.now.items + self.now.room < 2 ^ 63 }
        ensures inside { self.now.gap ≤ length self.now.items }
    {
        self.block.len()
    }

    /// How many more items there is room for.
    pub fn room(&self) -> usize
        ensures { result ≡ self.now.room }
    {
        self.block.room()
    }

    /// How many items precede the gap.
    pub fn gap(&self) -> usize
        ensures { result ≡ self.now.gap }
    {
        self.block.gap()
    }

    /// How many places the gap has moved in all, up to the greatest number that the type has.
    pub fn moved(&self) -> u64
        ensures { result ≡ self.now.moved }
    {
        self.moved
    }

    /// Returns the item at index `i`, or none if the list has no such item.
    pub fn get(&self, i: usize) -> Option<&T>
        ensures { option_copied result ≡ slice_get self.now.items i }
    {
        self.block.get(i)
    }

    /// Puts an item before the one at index `i`, or at the end. The gap follows it then.
    pub fn insert(&mut self, i: usize, item: T)
        requires inside { i ≤ length self.old.items }
        requires room { 0 < self.old.room }
        ensures { self.new ≡ gapped_list (insert self.old.items i item) (i + 1) (self.old.room - 1)
            (add_to_tally self.old.moved (distance self.old.gap i)) }
    {
        self.move_gap(i);
        self.block.put(item);
    }

    /// Takes out the item at index `i`. The gap is in its place then.
    pub fn remove(&mut self, i: usize) -> T
        requires { i < length self.old.items }
        ensures item { slice_get self.old.items i ≡ Some result }
        ensures list { self.new ≡ gapped_list (remove self.old.items i) i (self.old.room + 1)
            (add_to_tally self.old.moved (distance self.old.gap i)) }
    {
        self.move_gap(i);
        self.block.take_next()
    }

    /// Puts an item at the end. The gap is after it then.
    #[inline(always)]
    pub fn push(&mut self, item: T)
        requires { 0 < self.old.room }
        ensures items { self.new.items ≡ self.old.items ++ item ∷ [] }
        ensures gap { self.new.gap ≡ length self.old.items + 1 }
        ensures room { self.new.room ≡ self.old.room - 1 }
        ensures moved { self.new.moved
            ≡ add_to_tally self.old.moved (distance self.old.gap (length self.old.items)) }
    {
        // For the prover: the tally is a `u64`.
        let _ = self.moved();
        let end = self.block.len();
        if self.block.gap() != end {
            self.move_gap(end);
        }
        self.block.put(item);
    }

    /// Moves the gap to a place. It is out of line, so that `push` is short.
    #[inline(never)]
    fn move_gap(&mut self, to: usize)
        requires { to ≤ length self.old.items }
        ensures { self.new ≡ gapped_list self.old.items to self.old.room (add_to_tally self.old.moved (distance self.old.gap to)) }
    {
        let from = self.block.gap();
        self.block.move_gap(to);
        self.moved = self.moved.saturating_add(from.abs_diff(to) as u64);
    }

    /// Drops `count` items from index `at` on. The gap is there then.
    pub(crate) fn remove_run(&mut self, at: usize, count: usize)
    where
        T: Drop,
        requires { at + count ≤ length self.old.items }
        ensures { self.new ≡ gapped_list (replaced_run self.old.items at count []) at (self.old.room + count)
            (add_to_tally self.old.moved (distance self.old.gap at)) }
    {
        self.move_gap(at);
        for _dropped in 0..count {
            drop(self.block.take_next());
        }
    }

    /// Moves all items into an empty list with room for them, which replaces their own.
    pub(crate) fn move_over(&mut self, roomier: GapList<T>)
        requires empty { roomier.items ≡ [] }
        requires room { length self.old.items ≤ roomier.room }
        ensures { self.new ≡ gapped_list self.old.items self.old.gap (roomier.room - length self.old.items) self.old.moved }
    {
        let GapList {
            block,
            alloc: _,
            moved: _,
        } = roomier;
        let gap = self.block.gap();
        let wider = move_items(&mut self.block, block);
        replace(&mut self.block, wider).end();
        self.block.move_gap(gap);
    }

    /// Takes the items of another list instead of its own: in its own memory if they fit, else in that of the other. The
    /// gap, and how many places it has moved, are those of the other.
    pub fn take_over(&mut self, other: GapList<T>)
    where
        T: Drop,
        ensures items { self.new.items ≡ other.items }
        ensures gap { self.new.gap ≡ other.gap }
        ensures moved { self.new.moved ≡ other.moved }
    {
        let mut own = replace(self, other);
        let count = own.len();
        own.remove_run(0, count);
        if self.len() <= own.room() {
            self.move_over(own);
        }
    }

    /// Puts items at the gap, which follows them then.
    pub(crate) fn put_all(&mut self, items: Vec<T>)
    where
        T: Drop,
        requires { length items.items ≤ self.old.room }
        ensures { self.new ≡ gapped_list (replaced_run self.old.items self.old.gap 0 items.items)
            (self.old.gap + length items.items) (self.old.room - length items.items) self.old.moved }
    {
        for item in items {
            self.block.put(item);
        }
    }
}

/// Moves the items of `from` into the empty places of `block`, in order and before the gap.
fn move_items<T>(from: &mut Block<T>, mut block: Block<T>) -> Block<T>
    requires empty { block.items ≡ [] }
    requires room { length from.old.items ≤ block.room }
    ensures moved { result ≡ gap_block from.old.items (length from.old.items) (block.room - length from.old.items) }
    ensures none { from.new.items ≡ [] }
{
    from.move_gap(0);
    block.move_gap(0);
    while from.len() > 0 {
        block.put(from.take_next());
    }
    block
}

impl<T: Drop> Drop for GapList<T> {
    fn drop(mut self) {
        let count = self.len();
        self.remove_run(0, count);
        let GapList {
            block,
            alloc: _,
            moved: _,
        } = self;
        block.end();
    }
}
