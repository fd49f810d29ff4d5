//! The errors of plays and orders.

ghost use Rattle.std.specs.Prelude.{◌≡◌};
ghost use Rattle.abc_repeat.specs.declared.fault.RepeatFault.TheVariants.{OutOfMemory};

use std::alloc::{AllocError, AllocFailed};
use thiserror::Error;

/// The reason why a section has no play: the first of these that applies.
#[derive(Clone, Copy, Debug, PartialEq, Eq, Error)]
pub enum RepeatFault {
    /// More than 1,000,000 places would be played.
    #[error("more than 1,000,000 notes, chords, rests, fields and programs would be played")]
    TooLong,
    /// An allocation failed.
    #[error("out of memory")]
    OutOfMemory,
}

impl From<AllocError> for RepeatFault {
    ghost from_gives = { λ _ fault. fault ≡ OutOfMemory };

    fn from(_e: AllocError) -> RepeatFault {
        RepeatFault::OutOfMemory
    }
}

/// The reason why sections have no order of play: the first of these that applies.
#[derive(Clone, Copy, Debug, PartialEq, Eq, Error)]
pub enum OrderFault {
    /// More than 4,096 sections would be played.
    #[error("more than 4,096 sections would be played")]
    TooLong {
        /// Whether the order has a letter without a section.
        unknown: bool,
    },
    /// An allocation failed.
    #[error("out of memory")]
    OutOfMemory,
}

impl From<AllocError> for OrderFault {
    ghost use Rattle.abc_repeat.specs.declared.fault.OrderFault.TheVariants as faults;

    ghost from_gives = { λ _ fault. fault ≡ faults.OutOfMemory };

    fn from(_e: AllocError) -> OrderFault {
        OrderFault::OutOfMemory
    }
}
