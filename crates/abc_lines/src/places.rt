//! A block of memory as a row of places, each of which is empty or holds an item. Only this module follows a pointer.
//!
//! Neither type can be dropped: only `deallocate` ends both, and it takes a row of empty places. So no item is leaked,
//! read twice or overwritten, and no block is leaked or freed twice.

ghost use Rattle.std.specs.Prelude.{◌≡◌, ℕ, ◌<◌, List, Option, Some, None, length, replicate, get_or, slice_set, IfOk};
ghost use Rattle.std.specs.Vec.Ownership.{FitsInBlock};
ghost use denote.RawPtr.{Ptr};
ghost use Rattle.abc_lines.specs.Places.{row_owned, row_lent, claim_owned};

use std::alloc::{AllocError, Allocator};
use std::marker::{Model, PhantomData};
use std::mem::{align_of, size_of};

/// A row of places side by side, and what they hold.
pub(crate) struct Places<T> {
    start: *mut T,
    ghost row: { List (Option T) },
}

impl<T> Model for Places<T> {
    ghost also_owns = { λ p. row_owned T.row p.start p.row };

    ghost also_shares = { λ p _ κ. row_lent T.row p.start p.row κ };
}

/// The right to free a block of `count` places by the allocator that it is from. It takes no bytes.
pub(crate) struct Claim<T, A: Allocator> {
    right: PhantomData<*const (T, A)>,
    ghost start: { Ptr },
    ghost count: { ℕ },
    ghost from: { A },
}

impl<T, A: Allocator> Model for Claim<T, A> {
    ghost also_owns = { λ c. claim_owned T.row (A.dealloc_token c.from) c.start c.count };
}

/// A new block of `count` places, all of them empty, and the claim to it.
pub(crate) fn allocate<T, A: Allocator>(
    alloc: &A,
    count: usize,
) -> Result<(Places<T>, Claim<T, A>), AllocError>
    requires fits { FitsInBlock T.row count }
    ensures { IfOk result (λ made. (made.0.row ≡ replicate count None) × (made.1.start ≡ made.0.start)
        × (made.1.count ≡ count) × (made.1.from ≡ alloc.now)) }
{
    match alloc.allocate(count * size_of::<T>(), align_of::<T>()) {
        Ok(block) => Ok((
            Places {
                start: block as *mut T,
            },
            Claim { right: PhantomData },
        )),
        Err(error) => Err(error),
    }
}

/// Frees the block, all of whose places are empty.
pub(crate) fn deallocate<T, A: Allocator>(
    alloc: &A,
    places: Places<T>,
    count: usize,
    claim: Claim<T, A>,
)
    requires { (places.row ≡ replicate count None) × (claim.start ≡ places.start) × (claim.count ≡ count)
        × (claim.from ≡ alloc.now) }
{
    let Places { start } = places;
    let Claim { right: _ } = claim;
    unsafe {
        alloc.deallocate(start as *mut u8, count * size_of::<T>(), align_of::<T>());
    }
}

impl<T> Places<T> {
    /// Puts an item into an empty place.
    pub(crate) fn write(&mut self, index: usize, item: T)
        requires { (index < length self.old.row) × (get_or self.old.row index None ≡ None) }
        ensures { (self.new.start ≡ self.old.start) × (self.new.row ≡ slice_set self.old.row index (Some item)) }
    {
        unsafe { self.start.add(index).write(item) }
    }

    /// Takes the item out of a place that holds one, and leaves the place empty.
    pub(crate) fn read(&mut self, index: usize) -> T
        requires { (x : T) × (get_or self.old.row index None ≡ Some x) }
        ensures { (get_or self.old.row index None ≡ Some result) × (self.new.start ≡ self.old.start)
            × (self.new.row ≡ slice_set self.old.row index None) }
    {
        unsafe { self.start.add(index).read() }
    }

    /// The item in a place that holds one.
    pub(crate) fn get(&self, index: usize) -> &T
        requires { (x : T) × (get_or self.now.row index None ≡ Some x) }
        ensures { get_or self.now.row index None ≡ Some result.now }
    {
        unsafe { &*self.start.add(index) }
    }
}
