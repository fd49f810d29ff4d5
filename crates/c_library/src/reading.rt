//! Calls that read a session, and the calls that name codes.

ghost use Rattle.std.specs.Prelude.{◌≡◌, length, option_map};
ghost use Rattle.c_handle.specs.Answers.{count_answer, line_in, lines_count, numbers_in, output_in, removed_in, title_number};
ghost use Rattle.c_handle.specs.Answers.{title_text, titles_count, written_in};
ghost use Rattle.c_handle.specs.CodeNames.{code_name};
ghost use Rattle.c_handle.specs.Copies.{lookup_answer, slot_answer};
ghost use Rattle.c_handle.specs.FaultNames.{IsEachNumbered, name_numbered};
ghost use Rattle.c_handle.specs.Faults.{faults_in};
ghost use Rattle.c_handle.specs.Slot.{session_in};
ghost use Rattle.c_handle.specs.declared.fault_names.TheConstants.{FAULT_CODES};

use c_handle::{FaultRecord, SessionSlot};
use std::alloc::Global;

/// Copies the numbers whose files the last edit wrote, rising.
#[unsafe(no_mangle)]
pub extern "C" fn abc_live_written(
    alloc: Global,
    slot: &mut SessionSlot,
    numbers: &mut [u32],
    count: &mut usize,
) -> u32
    ensures unchanged { session_in slot.new ≡ session_in slot.old }
    ensures empty { session_in slot.old ≡ None → slot.new ≡ slot.old }
    ensures value { (result, count.new, numbers.new) ≡ slot_answer (option_map written_in (session_in slot.old)) numbers.old }
{
    let answer = c_handle::copy_written(alloc, slot, numbers);
    *count = answer.count;
    answer.code
}

/// Copies the numbers whose files the last edit removed, rising.
#[unsafe(no_mangle)]
pub extern "C" fn abc_live_removed(
    alloc: Global,
    slot: &mut SessionSlot,
    numbers: &mut [u32],
    count: &mut usize,
) -> u32
    ensures unchanged { session_in slot.new ≡ session_in slot.old }
    ensures empty { session_in slot.old ≡ None → slot.new ≡ slot.old }
    ensures value { (result, count.new, numbers.new) ≡ slot_answer (option_map removed_in (session_in slot.old)) numbers.old }
{
    let answer = c_handle::copy_removed(alloc, slot, numbers);
    *count = answer.count;
    answer.code
}

/// Copies the reference numbers that have a file, rising.
#[unsafe(no_mangle)]
pub extern "C" fn abc_live_numbers(
    alloc: Global,
    slot: &mut SessionSlot,
    numbers: &mut [u32],
    count: &mut usize,
) -> u32
    ensures unchanged { session_in slot.new ≡ session_in slot.old }
    ensures empty { session_in slot.old ≡ None → slot.new ≡ slot.old }
    ensures value { (result, count.new, numbers.new) ≡ slot_answer (option_map numbers_in (session_in slot.old)) numbers.old }
{
    let answer = c_handle::copy_numbers(alloc, slot, numbers);
    *count = answer.count;
    answer.code
}

/// Copies the bytes of a number's file.
#[unsafe(no_mangle)]
pub extern "C" fn abc_live_output(
    alloc: Global,
    slot: &mut SessionSlot,
    number: u32,
    bytes: &mut [u8],
    count: &mut usize,
) -> u32
    ensures unchanged { session_in slot.new ≡ session_in slot.old }
    ensures empty { session_in slot.old ≡ None → slot.new ≡ slot.old }
    ensures value { (result, count.new, bytes.new) ≡ slot_answer (option_map (output_in number) (session_in slot.old)) bytes.old }
{
    let answer = c_handle::copy_output(alloc, slot, number, bytes);
    *count = answer.count;
    answer.code
}

/// Counts the titles: one a tune.
#[unsafe(no_mangle)]
pub extern "C" fn abc_live_title_count(
    alloc: Global,
    slot: &mut SessionSlot,
    count: &mut usize,
) -> u32
    ensures unchanged { session_in slot.new ≡ session_in slot.old }
    ensures empty { session_in slot.old ≡ None → slot.new ≡ slot.old }
    ensures value { (result, count.new) ≡ count_answer (option_map titles_count (session_in slot.old)) }
{
    c_handle::count_titles(alloc, slot, count)
}

/// Copies the number and the bytes of the title at an index from 0.
#[unsafe(no_mangle)]
pub extern "C" fn abc_live_title(
    alloc: Global,
    slot: &mut SessionSlot,
    index: usize,
    number: &mut u32,
    bytes: &mut [u8],
    count: &mut usize,
) -> u32
    ensures unchanged { session_in slot.new ≡ session_in slot.old }
    ensures empty { session_in slot.old ≡ None → slot.new ≡ slot.old }
    ensures value { (result, count.new, bytes.new) ≡ slot_answer (option_map (title_text index) (session_in slot.old)) bytes.old }
    ensures number { number.new ≡ title_number index (session_in slot.old) }
{
    let answer = c_handle::copy_title(alloc, slot, index, number, bytes);
    *count = answer.count;
    answer.code
}

/// Copies the faults of the text, in order.
#[unsafe(no_mangle)]
pub extern "C" fn abc_live_faults(
    alloc: Global,
    slot: &mut SessionSlot,
    records: &mut [FaultRecord],
    count: &mut usize,
) -> u32
    ensures unchanged { session_in slot.new ≡ session_in slot.old }
    ensures empty { session_in slot.old ≡ None → slot.new ≡ slot.old }
    ensures value { (result, count.new, records.new) ≡ slot_answer (option_map faults_in (session_in slot.old)) records.old }
{
    let answer = c_handle::copy_faults(alloc, slot, records);
    *count = answer.count;
    answer.code
}

/// Copies the name of the code of a number: the word that the list of faults prints.
#[unsafe(no_mangle)]
pub extern "C" fn abc_live_fault_name(number: u32, bytes: &mut [u8], count: &mut usize) -> u32
    ensures value { (result, count.new, bytes.new) ≡ lookup_answer (name_numbered number) bytes.old }
    ensures exact { IsEachNumbered }
    ensures few { length FAULT_CODES ≡ 27 }
{
    let answer = c_handle::copy_fault_name(number, bytes);
    *count = answer.count;
    answer.code
}

/// Copies the name of a code that calls return, as the header of C has it.
#[unsafe(no_mangle)]
pub extern "C" fn abc_live_code_name(code: u32, bytes: &mut [u8], count: &mut usize) -> u32
    ensures value { (result, count.new, bytes.new) ≡ lookup_answer (code_name code) bytes.old }
{
    let answer = c_handle::copy_code_name(code, bytes);
    *count = answer.count;
    answer.code
}

/// Counts the lines.
#[unsafe(no_mangle)]
pub extern "C" fn abc_live_line_count(alloc: Global, slot: &mut SessionSlot, count: &mut u32) -> u32
    ensures unchanged { session_in slot.new ≡ session_in slot.old }
    ensures empty { session_in slot.old ≡ None → slot.new ≡ slot.old }
    ensures value { (result, count.new) ≡ count_answer (option_map lines_count (session_in slot.old)) }
{
    c_handle::count_lines(alloc, slot, count)
}

/// Copies the bytes of a line, counted from 1.
#[unsafe(no_mangle)]
pub extern "C" fn abc_live_line(
    alloc: Global,
    slot: &mut SessionSlot,
    number: u32,
    bytes: &mut [u8],
    count: &mut usize,
) -> u32
    ensures unchanged { session_in slot.new ≡ session_in slot.old }
    ensures empty { session_in slot.old ≡ None → slot.new ≡ slot.old }
    ensures value { (result, count.new, bytes.new) ≡ slot_answer (option_map (line_in number) (session_in slot.old)) bytes.old }
{
    let answer = c_handle::copy_line(alloc, slot, number, bytes);
    *count = answer.count;
    answer.code
}
