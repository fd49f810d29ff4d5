//! The call that reads the tokens of a line.

ghost use Rattle.std.specs.Prelude.{◌≡◌, None};
ghost use Rattle.c_handle.specs.Slot.{session_in};
ghost use Rattle.c_handle.specs.TokenRecords.{CopiesTokens, work_in};

use c_handle::{SessionSlot, TokenRecord, Work, copy_tokens};
use std::alloc::Global;

/// Copies the tokens of a line, counted from 1.
#[unsafe(no_mangle)]
pub extern "C" fn abc_live_tokens(
    alloc: Global,
    slot: &mut SessionSlot,
    number: u32,
    tokens: &mut [TokenRecord],
    count: &mut usize,
    work: &mut Work,
) -> u32
    ensures unchanged { session_in slot.new ≡ session_in slot.old }
    ensures empty { session_in slot.old ≡ None → slot.new ≡ slot.old }
    ensures value { CopiesTokens number (session_in slot.old) tokens.old (result, count.new, tokens.new) }
    ensures counted { work.new ≡ work_in number (session_in slot.old) work.old }
{
    let answer = copy_tokens(alloc, slot, number, tokens, work);
    *count = answer.count;
    answer.code
}
