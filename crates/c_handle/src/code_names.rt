//! The call that names the codes of calls.

ghost use Rattle.std.specs.Prelude.{◌≡◌, option_copied};
ghost use Rattle.c_handle.specs.CodeNames.{code_name};
ghost use Rattle.c_handle.specs.Copies.{lookup_answer};

use crate::codes::{
    CODE_BAD_LINE, CODE_BAD_RANGE, CODE_MISUSED, CODE_NOT_FOUND, CODE_OK, CODE_OUT_OF_MEMORY,
    CODE_SHORT_BUFFER, CODE_TOO_LARGE, CODE_TOO_LONG,
};
use crate::copying::{CopyAnswer, copy_found};

/// Returns the name of a code.
#[tactic(auto, unfolding(crate::specs::CodeNames::code_name))]
fn code_name(code: u32) -> Option<&'static [u8]>
    ensures value { option_copied result ≡ code_name code }
{
    match code {
        CODE_OK => Some(b"ABC_LIVE_OK"),
        CODE_MISUSED => Some(b"ABC_LIVE_MISUSED"),
        CODE_BAD_RANGE => Some(b"ABC_LIVE_BAD_RANGE"),
        CODE_BAD_LINE => Some(b"ABC_LIVE_BAD_LINE"),
        CODE_TOO_LARGE => Some(b"ABC_LIVE_TOO_LARGE"),
        CODE_OUT_OF_MEMORY => Some(b"ABC_LIVE_OUT_OF_MEMORY"),
        CODE_NOT_FOUND => Some(b"ABC_LIVE_NOT_FOUND"),
        CODE_SHORT_BUFFER => Some(b"ABC_LIVE_SHORT_BUFFER"),
        CODE_TOO_LONG => Some(b"ABC_LIVE_TOO_LONG"),
        _ => None,
    }
}

/// Copies the name of a code that calls return, as the header of C has it.
pub fn copy_code_name(code: u32, bytes: &mut [u8]) -> CopyAnswer
    ensures value { (result.code, result.count, bytes.new) ≡ lookup_answer (code_name code) bytes.old }
{
    copy_found(code_name(code), bytes)
}
