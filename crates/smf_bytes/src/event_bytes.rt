//! The bytes of an event, in place if they are few.
ghost use Rattle.std.specs.Prelude.{◌≡◌, ◌≤◌, length, Some, IsOk, IfOk, nat_eq, refl};
ghost use Rattle.std.specs.Cmp.{partial_equiv_from_equiv};
ghost use Rattle.std.specs.Cmp.Lexicographic.{pointwise, slice_cmp, nat_list_eq_equiv, nat_list_cmp_total, texts_po, texts_ties};
ghost use Rattle.std.specs.Ordering.{nat_cmp};
ghost use Rattle.smf_bytes.specs.declared.event_bytes.TheConstants.{ROOM_IN_PLACE};

use smallvec::SmallVec;
use std::alloc::{AllocError, Global};
use std::cmp::Ordering;
use std::fmt;
use std::marker::Model;

/// The number of bytes that an event holds in place: all events but titles have no more.
pub const ROOM_IN_PLACE: usize = 8;

/// The bytes of an event in a track, after its delta time. Contracts see the bytes, in place or not.
#[derive(Drop)]
pub struct EventBytes {
    bytes: SmallVec<u8, ROOM_IN_PLACE>,
}

impl Model for EventBytes {
    ghost use Rattle.std.specs.Prelude.{ℕ, List};

    ghost Value = { List ℕ };

    ghost view = { λ e. e.bytes.items };
}

impl EventBytes {
    /// Returns a copy of these bytes, which allocates only if they do not fit in place. It returns an error if an allocation
    /// fails.
    pub fn from_slice(alloc: Global, bytes: &[u8]) -> Result<Self, AllocError>
        ensures ok { IfOk result (λ copy. copy ≡ bytes.now) }
        ensures succeeds { length bytes.now ≤ ROOM_IN_PLACE → IsOk result }
    {
        Ok(EventBytes {
            bytes: SmallVec::from_slice(alloc, bytes)?,
        })
    }

    /// Returns the bytes in order.
    #[inline]
    pub fn as_slice(&self) -> &[u8]
        ensures { result.now ≡ self.now }
    {
        self.bytes.as_slice()
    }
}

impl PartialEq for EventBytes {
    ghost eq = { pointwise nat_eq };

    ghost laws = { partial_equiv_from_equiv nat_list_eq_equiv };

    fn eq(&self, other: &Self) -> bool {
        self.bytes == other.bytes
    }
}

impl Eq for EventBytes {
    ghost laws = { nat_list_eq_equiv };
}

impl PartialOrd for EventBytes {
    ghost partial_cmp = { λ a b. Some (slice_cmp nat_cmp a b) };

    ghost laws = { texts_po };

    fn partial_cmp(&self, other: &Self) -> Option<Ordering> {
        Some(self.cmp(other))
    }
}

impl Ord for EventBytes {
    ghost cmp = { slice_cmp nat_cmp };

    ghost total = { nat_list_cmp_total };

    ghost matches_partial_cmp = { λ a b. refl };

    ghost matches_eq = { texts_ties };

    fn cmp(&self, other: &Self) -> Ordering {
        self.bytes.cmp(&other.bytes)
    }
}

impl fmt::Debug for EventBytes {
    fn fmt<W: fmt::Write>(&self, f: &mut fmt::Formatter<W>) -> fmt::Result {
        self.bytes.fmt(f)
    }
}
