//! Why a line has no tokens.

ghost use Rattle.std.specs.Prelude.{◌≡◌};
ghost use Rattle.abc_live_session.specs.declared.tokens_error.TokensError.TheVariants.{OutOfMemory};

use std::alloc::AllocError;
use thiserror::Error;

/// Why a question for the tokens of a line was refused.
#[derive(Clone, Copy, Debug, PartialEq, Eq, Error)]
pub enum TokensError {
    /// The text has no line of this number.
    #[error("the text has no such line")]
    NoSuchLine,
    /// An allocation failed.
    #[error("out of memory")]
    OutOfMemory,
}

impl From<AllocError> for TokensError {
    ghost from_gives = { λ _ e. e ≡ OutOfMemory };

    fn from(_e: AllocError) -> TokensError {
        TokensError::OutOfMemory
    }
}
