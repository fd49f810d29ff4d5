//! Why a number has no play.

ghost use Rattle.std.specs.Prelude.{◌≡◌};
ghost use Rattle.abc_play.specs.declared.play_error.PlayError.TheVariants.{OutOfMemory};

use std::alloc::AllocError;
use thiserror::Error;

/// Why a question for the play of a number was refused.
#[derive(Clone, Copy, Debug, PartialEq, Eq, Error)]
pub enum PlayError {
    /// No tune of this number has a file.
    #[error("no tune of this number has a file")]
    NoSuchNumber,
    /// The voices with a track would play more than 1,000,000 notes, chords, rests, fields, programs and bar lines together.
    #[error("more than 1,000,000 notes, chords, rests, fields, programs and bar lines would be played")]
    TooLong,
    /// An allocation failed.
    #[error("out of memory")]
    OutOfMemory,
}

impl From<AllocError> for PlayError {
    ghost from_gives = { λ _ e. e ≡ OutOfMemory };

    fn from(_e: AllocError) -> PlayError {
        PlayError::OutOfMemory
    }
}
