//! Why an edit of a text is refused.

ghost use Rattle.std.specs.Prelude.{◌≡◌};
ghost use Rattle.abc_lines.specs.declared.edit_error.EditError.TheVariants.{OutOfMemory};

use std::alloc::{AllocError, AllocFailed};
use thiserror::Error;

/// Why an edit was refused: the first of these that applies, in this order.
#[derive(Clone, Copy, Debug, PartialEq, Eq, Error)]
pub enum EditError {
    /// The edit's lines are not lines of the text.
    #[error("the range is not in the text")]
    BadRange,
    /// A new line has a line feed or has more than 65,535 bytes.
    #[error("a line holds a line feed or has more than 65,535 bytes")]
    BadLine,
    /// The text would have more than 1,048,576 lines.
    #[error("the text would have more than 1,048,576 lines")]
    TooLarge,
    /// An allocation failed.
    #[error("out of memory")]
    OutOfMemory,
}

impl EditError {
    ghost use Rattle.abc_lines.specs.EditError.{name_of};

    /// The word for it in an answer.
    pub fn name(self) -> &'static str
        ensures { result.now ≡ name_of self }
    {
        match self {
            EditError::BadRange => "BadRange",
            EditError::BadLine => "BadLine",
            EditError::TooLarge => "TooLarge",
            EditError::OutOfMemory => "OutOfMemory",
        }
    }
}

impl From<AllocError> for EditError {
    ghost from_gives = { λ _ e. e ≡ OutOfMemory };

    fn from(_e: AllocError) -> EditError {
        EditError::OutOfMemory
    }
}

impl<T: Drop> From<AllocFailed<T>> for EditError {
    ghost from_gives = { λ _ e. e ≡ OutOfMemory };

    fn from(_e: AllocFailed<T>) -> EditError {
        EditError::OutOfMemory
    }
}
