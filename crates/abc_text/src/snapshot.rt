//! A snapshot of a value, for contracts alone.

ghost use Rattle.std.specs.Prelude.{◌≡◌};
ghost use Rattle.std.specs.Borrow.{ftrue};

use std::marker::{Model, PhantomData};

/// The value at the time of the snapshot. It takes no bytes and borrows nothing. A prepared patch names the old value
/// by it in its contracts.
#[derive(Drop)]
pub struct Snapshot<T> {
    of: PhantomData<T>,
    pub ghost value: { T },
}

impl<T> Model for Snapshot<T> {
    ghost also_owns = { λ _. ftrue };
}

impl<T> Snapshot<T> {
    /// Returns a snapshot of the current value.
    pub fn of(seen: &T) -> Snapshot<T>
        ensures { result.value ≡ seen.now }
    {
        let _ = seen;
        Snapshot { of: PhantomData }
    }
}
