//! A splice of a list with a gap that has been prepared.

ghost use Rattle.std.specs.Prelude.{◌≡◌, ◌+◌, ◌≤◌, length, IfOk, IsOk, option_copied, slice_get};
ghost use Rattle.abc_lines.specs.ListSplice.{IsSplice, after_splice, capacity, count_after, splice_view};

use crate::gap_list::GapList;
use abc_text::Snapshot;
use std::alloc::{AllocError, Global};
use std::marker::Model;

/// A splice of a list, with all the memory that it needs: a list with more room if the one to be spliced has too
/// little. It must be spent, by `commit` of that one or by `drop_patch`. Contracts see the list that it was prepared on
/// and the list after it.
pub struct SplicePatch<T> {
    on: Snapshot<GapList<T>>,
    at: usize,
    removed: usize,
    new: Vec<T>,
    roomier: Option<GapList<T>>,
}

impl<T> Model for SplicePatch<T> {
    ghost use Rattle.abc_lines.specs.ListSplice.{SplicePatchView, IsSplice, splice_view};

    ghost Value = { SplicePatchView T };

    ghost view = { λ p. splice_view p.on.value p.at p.removed p.new.items };

    ghost invariant = { λ p. IsSplice p.on.value p.at p.removed p.new.items p.roomier };
}

impl<T: Drop> GapList<T> {
    /// Prepares to replace the `removed` items from index `at` on by others. Nothing changes. The list after the splice
    /// has as many places as before if these are enough, and otherwise twice as many as it has items. It returns an error if
    /// the allocation of these fails; the new items are dropped then.
    pub fn splice_prepare(
        &self,
        alloc: Global,
        at: usize,
        removed: usize,
        new: Vec<T>,
    ) -> Result<SplicePatch<T>, AllocError>
        requires { at + removed ≤ length self.now.items }
        ensures on { IfOk result (λ patch. patch.on ≡ self.now) }
        ensures after { IfOk result (λ patch. patch.after ≡ after_splice self.now at removed new.items) }
        ensures succeeds { count_after self.now removed new.items ≤ capacity self.now → IsOk result }
    {
        let count = self.len() - removed + new.len();
        let roomier = if count <= self.len() + self.room() {
            None
        } else {
            Some(GapList::with_room(alloc, count.saturating_mul(2))?)
        };
        Ok(SplicePatch {
            on: Snapshot::of(self),
            at,
            removed,
            new,
            roomier,
        })
    }

    /// Commits a prepared splice without allocating. The patch belongs to the list as it is now.
    pub fn commit(&mut self, patch: SplicePatch<T>)
        requires { patch.on ≡ self.old }
        ensures { self.new ≡ patch.after }
    {
        let SplicePatch {
            on: _,
            at,
            removed,
            new,
            roomier,
        } = patch;
        apply_splice(self, roomier, at, removed, new);
    }
}

/// Makes a prepared splice of a list, in one with more room if it has too little.
fn apply_splice<T: Drop>(
    list: &mut GapList<T>,
    roomier: Option<GapList<T>>,
    at: usize,
    removed: usize,
    new: Vec<T>,
)
    requires { IsSplice list.old at removed new.items roomier }
    ensures { list.new ≡ after_splice list.old at removed new.items }
{
    list.remove_run(at, removed);
    if let Some(roomier) = roomier {
        list.move_over(roomier);
    }
    list.put_all(new);
}

impl<T> SplicePatch<T> {
    /// Returns how many items the list has after the splice. The patch belongs to the list as it is now.
    pub fn len(&self, list: &GapList<T>) -> usize
        requires { self.now.on ≡ list.now }
        ensures { result ≡ length self.now.after.items }
    {
        list.len() - self.removed + self.new.len()
    }

    /// Returns the item at index `i` after the splice, or none if there is no such item then. The patch belongs to the list as
    /// it is now.
    pub fn get<'a>(&'a self, list: &'a GapList<T>, i: usize) -> Option<&'a T>
        requires { self.now.on ≡ list.now }
        ensures { option_copied result ≡ slice_get self.now.after.items i }
    {
        let count = list.len();
        if i < self.at {
            list.get(i)
        } else if i - self.at < self.new.len() {
            Some(&self.new[i - self.at])
        } else if i - self.new.len() < count - self.removed {
            list.get(i - self.new.len() + self.removed)
        } else {
            None
        }
    }

    /// Drops the patch: nothing changes.
    pub fn drop_patch(self)
    where
        T: Drop,
    {
        let SplicePatch {
            on: _,
            at: _,
            removed: _,
            new: _,
            roomier: _,
        } = self;
    }
}
