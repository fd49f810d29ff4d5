//! Copies into buffers of the caller.

ghost use Rattle.std.specs.Prelude.{◌≡◌, option_copied};
ghost use Rattle.c_handle.specs.Copies.{copy_answer, lookup_answer};

use crate::codes::{CODE_MISUSED, CODE_NOT_FOUND, CODE_OK, CODE_SHORT_BUFFER};

/// The answer of a call that copies items: a code, and the number of items, which is 0 if there are none. The code is
/// `CODE_OK`, `CODE_SHORT_BUFFER` if they do not fit, `CODE_NOT_FOUND` if there are none, `CODE_TOO_LONG` if a play has too many,
/// `CODE_OUT_OF_MEMORY` if an allocation fails, or `CODE_MISUSED` if the slot has no session.
#[derive(Drop)]
pub struct CopyAnswer {
    pub code: u32,
    pub count: usize,
}

/// Copies items into a buffer if they fit, and else leaves it.
pub fn copy<T: Copy>(items: &[T], buffer: &mut [T]) -> CopyAnswer
    ensures value { (result.code, result.count, buffer.new) ≡ copy_answer items.now buffer.old }
{
    let count = items.len();
    if count > buffer.len() {
        return CopyAnswer {
            code: CODE_SHORT_BUFFER,
            count,
        };
    }
    buffer[..count].copy_from_slice(items);
    CopyAnswer {
        code: CODE_OK,
        count,
    }
}

/// Copies items, if there are any.
pub fn copy_found<T: Copy>(items: Option<&[T]>, buffer: &mut [T]) -> CopyAnswer
    ensures value { (result.code, result.count, buffer.new) ≡ lookup_answer (option_copied items.entry) buffer.old }
{
    match items {
        Some(items) => copy(items, buffer),
        None => without_items(CODE_NOT_FOUND),
    }
}

/// Returns the answer of a call that copies no items.
pub fn without_items(code: u32) -> CopyAnswer
    ensures value { result ≡ record { code = code; count = 0 } }
{
    CopyAnswer { code, count: 0 }
}

/// Returns the answer of a slot that holds no session.
pub fn misuse() -> CopyAnswer
    ensures value { result ≡ record { code = CODE_MISUSED; count = 0 } }
{
    without_items(CODE_MISUSED)
}
