//! The call that reads the tokens of a line.

ghost use Rattle.std.specs.Prelude.{◌≡◌, IfOk, None, map, option_map};
ghost use Rattle.abc_live.specs.Tokens.{tokens_at, work_at};
ghost use Rattle.abc_tune.specs.Abc.{rules_of_abc};
ghost use Rattle.c_handle.specs.Copies.{copy_answer, lookup_answer};
ghost use Rattle.c_handle.specs.Slot.{session_in};
ghost use Rattle.c_handle.specs.TokenRecords.{CopiesFound, CopiesOrFails, CopiesTokens, token_record, work_in};

use crate::codes::{CODE_NOT_FOUND, CODE_OUT_OF_MEMORY};
use crate::copying::{CopyAnswer, copy, without_items};
use crate::slot::{SessionSlot, read_session};
use crate::token_record::TokenRecord;
use abc_fold::Work;
use abc_live::{LineToken, Session, TokensError};
use std::alloc::{AllocError, Global};

/// Returns the records of tokens.
fn records_of(alloc: Global, tokens: &[LineToken]) -> Result<Vec<TokenRecord>, AllocError>
    ensures { IfOk result (λ records. records.items ≡ map token_record tokens.now) }
{
    let mut records = Vec::with_capacity(alloc, tokens.len())?;
    for token in tokens {
        records.push(TokenRecord::of(*token))?;
    }
    Ok(records)
}

/// Copies tokens, unless an allocation fails.
fn copy_records(alloc: Global, tokens: &[LineToken], records: &mut [TokenRecord]) -> CopyAnswer
    ensures { CopiesOrFails (copy_answer (map token_record tokens.now) records.old) records.old
        (result.code, result.count, records.new) }
{
    match records_of(alloc, tokens) {
        Ok(found) => copy(&found, records),
        Err(_) => without_items(CODE_OUT_OF_MEMORY),
    }
}

/// Copies the tokens of a line of a session, unless an allocation fails.
#[tactic(auto, using(crate::proofs::TokenCopies::copied, crate::proofs::TokenCopies::missing, crate::proofs::TokenCopies::failed))]
fn copy_of_line(
    alloc: Global,
    session: &Session,
    number: u32,
    records: &mut [TokenRecord],
    work: &mut Work,
) -> CopyAnswer
    ensures value { let tokens = option_map (map token_record) (tokens_at rules_of_abc session.now.text number) in
        CopiesFound tokens (lookup_answer tokens records.old) records.old (result.code, result.count, records.new) }
    ensures counted { work.new ≡ work_at rules_of_abc session.now.text number work.old }
{
    match session.tokens(number, work) {
        Ok(tokens) => copy_records(alloc, &tokens, records),
        Err(TokensError::NoSuchLine) => without_items(CODE_NOT_FOUND),
        Err(TokensError::OutOfMemory) => without_items(CODE_OUT_OF_MEMORY),
    }
}

/// Copies the tokens of the line of a number, counted from 1.
pub fn copy_tokens(
    alloc: Global,
    slot: &mut SessionSlot,
    number: u32,
    records: &mut [TokenRecord],
    work: &mut Work,
) -> CopyAnswer
    ensures unchanged { session_in slot.new ≡ session_in slot.old }
    ensures empty { session_in slot.old ≡ None → slot.new ≡ slot.old }
    ensures value { CopiesTokens number (session_in slot.old) records.old (result.code, result.count, records.new) }
    ensures counted { work.new ≡ work_in number (session_in slot.old) work.old }
{
    read_session!(slot, alloc, session => copy_of_line(alloc, &session.session, number, records, work))
}
