//! A tune laid out in time, and the errors of the layout.

ghost use Rattle.std.specs.Prelude.{◌≡◌};
ghost use Rattle.abc_voices.specs.declared.arranged.BuildFault.TheVariants.{OutOfMemory};

use abc_voices_score::Score;
use std::alloc::AllocError;
use thiserror::Error;

/// A tune laid out in time.
#[derive(Debug, Drop)]
pub struct Arranged {
    pub score: Score,
    /// Whether two voices with notes or rests in a section that is played differ in length there.
    pub uneven: bool,
    /// Whether the order of the parts has a letter without a section.
    pub unknown: bool,
}

/// The reason why a tune is not laid out.
#[derive(Clone, Copy, Debug, PartialEq, Eq, Error)]
pub enum BuildFault {
    /// More sections or places are played than may be, it ends too late, or no file can hold its score.
    #[error("the tune is too long")]
    TooLong {
        /// Whether the order of the parts has a letter without a section.
        unknown: bool,
    },
    /// An allocation fails.
    #[error("out of memory")]
    OutOfMemory,
}

impl From<AllocError> for BuildFault {
    ghost from_gives = { λ _ fault. fault ≡ OutOfMemory };

    fn from(_e: AllocError) -> BuildFault {
        BuildFault::OutOfMemory
    }
}
