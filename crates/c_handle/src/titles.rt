//! Calls that read the titles of a session.

ghost use Rattle.std.specs.Prelude.{◌≡◌, option_map, slice_get};
ghost use Rattle.std.specs.Option.{unwrap_or};
ghost use Rattle.c_handle.specs.Slot.{session_in};
ghost use Rattle.c_handle.specs.Answers.{count_answer, title_number, title_text, titles_count};
ghost use Rattle.c_handle.specs.Copies.{lookup_answer, slot_answer};

use crate::codes::CODE_NOT_FOUND;
use crate::copying::{CopyAnswer, copy, misuse};
use crate::slot::{SessionSlot, count_in_session};
use abc_live::Title;
use std::alloc::Global;

/// Counts the titles, one a tune, and returns `CODE_OK`; or `CODE_MISUSED` with 0 titles if the slot has no session.
pub fn count_titles(alloc: Global, slot: &mut SessionSlot, count: &mut usize) -> u32
    ensures unchanged { session_in slot.new ≡ session_in slot.old }
    ensures empty { session_in slot.old ≡ None → slot.new ≡ slot.old }
    ensures value { (result, count.new) ≡ count_answer (option_map titles_count (session_in slot.old)) }
{
    count_in_session!(slot, alloc, count, session => session.session.titles().len())
}

/// Copies the number and the bytes of a title, if there is one at the index.
fn copy_title_at(titles: &[Title], index: usize, number: &mut u32, bytes: &mut [u8]) -> CopyAnswer
    ensures value { (result.code, result.count, bytes.new) ≡ lookup_answer (option_map (λ title. title.text)
        (slice_get titles.now index)) bytes.old }
    ensures number { number.new ≡ unwrap_or (option_map (λ title. title.number) (slice_get titles.now index)) 0 }
{
    match titles.get(index) {
        Some(title) => {
            *number = title.number;
            copy(title.text.as_slice(), bytes)
        }
        None => {
            *number = 0;
            CopyAnswer {
                code: CODE_NOT_FOUND,
                count: 0,
            }
        }
    }
}

/// Copies the number and the bytes of the title at an index from 0. The number is 0 if there is no such title or session.
pub fn copy_title(
    alloc: Global,
    slot: &mut SessionSlot,
    index: usize,
    number: &mut u32,
    bytes: &mut [u8],
) -> CopyAnswer
    ensures unchanged { session_in slot.new ≡ session_in slot.old }
    ensures empty { session_in slot.old ≡ None → slot.new ≡ slot.old }
    ensures value { (result.code, result.count, bytes.new)
        ≡ slot_answer (option_map (title_text index) (session_in slot.old)) bytes.old }
    ensures number { number.new ≡ title_number index (session_in slot.old) }
{
    match slot.take(alloc) {
        Some(session) => {
            let answer = copy_title_at(session.session.titles(), index, number, bytes);
            slot.fill(session);
            answer
        }
        None => {
            *number = 0;
            misuse()
        }
    }
}
