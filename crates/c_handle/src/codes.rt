//! The codes that calls answer. The header of C, the Python package and the package of JavaScript repeat their numbers.

ghost use Rattle.std.specs.Prelude.{◌≡◌};
ghost use Rattle.c_handle.specs.Codes.{code_of};

use abc_live::EditError;

/// The call did what it was asked.
pub const CODE_OK: u32 = 0;

const _: () = prove!(CODE_OK == 0);

/// The slot holds no session, or holds one that `open` would lose.
pub const CODE_MISUSED: u32 = 1;

const _: () = prove!(CODE_MISUSED == 1);

/// The lines of an edit are not in the text.
pub const CODE_BAD_RANGE: u32 = 2;

const _: () = prove!(CODE_BAD_RANGE == 2);

/// A line has more than 65,535 bytes.
pub const CODE_BAD_LINE: u32 = 3;

const _: () = prove!(CODE_BAD_LINE == 3);

/// The text would have more than 1,048,576 lines.
pub const CODE_TOO_LARGE: u32 = 4;

const _: () = prove!(CODE_TOO_LARGE == 4);

/// An allocation failed.
pub const CODE_OUT_OF_MEMORY: u32 = 5;

const _: () = prove!(CODE_OUT_OF_MEMORY == 5);

/// There is no such item.
pub const CODE_NOT_FOUND: u32 = 6;

const _: () = prove!(CODE_NOT_FOUND == 6);

/// The items do not fit into the buffer.
pub const CODE_SHORT_BUFFER: u32 = 7;

const _: () = prove!(CODE_SHORT_BUFFER == 7);

/// More would be played than a call copies.
pub const CODE_TOO_LONG: u32 = 8;

const _: () = prove!(CODE_TOO_LONG == 8);

/// Returns the code of a refused edit.
pub fn code_of(error: EditError) -> u32
    ensures value { result ≡ code_of error }
{
    match error {
        EditError::BadRange => CODE_BAD_RANGE,
        EditError::BadLine => CODE_BAD_LINE,
        EditError::TooLarge => CODE_TOO_LARGE,
        EditError::OutOfMemory => CODE_OUT_OF_MEMORY,
    }
}
