//! The texts of answers. The only error of a call is a failed allocation.

ghost use Rattle.std.specs.Prelude.{◌≡◌, ◌≢◌, ◌<◌, ◌++◌, codes, decimal, length, option_copied, option_map, IfOk, OnErr, OnOk};
ghost use Rattle.abc2midi_live_protocol.specs.Answer.{number_list, report_line, refusal, fault_line, fault_list, title_line, title_list};
ghost use Rattle.abc2midi_live_protocol.specs.Answer.{hex_line, stored_line, failed_line};

use abc_lines::EditError;
use abc_tune_compiler::{Fault, Report, Title};
use itoa::Buffer;
use std::alloc::{AllocError, Global};

/// What follows the number of a file in its line.
const FILE_ENDING: &[u8] = b".mid\n";

fn put_number(text: &mut Vec<u8>, number: u32) -> Result<(), AllocError>
    ensures { OnOk result (text.new.items ≡ text.old.items ++ decimal number) }
{
    text.extend_from_slice(Buffer::new().format(number).as_bytes())
}

fn put_numbers(text: &mut Vec<u8>, numbers: &[u32]) -> Result<(), AllocError>
    ensures { OnOk result (text.new.items ≡ text.old.items ++ number_list numbers.now) }
{
    let mut digits = Buffer::new();
    for number in numbers {
        text.push(b' ')?;
        text.extend_from_slice(digits.format(*number).as_bytes())?;
    }
    Ok(())
}

/// Returns the answer to an accepted edit. It returns an error if an allocation fails.
#[tactic(auto, unfolding(crate::specs::Answer::report_line))]
pub fn report_line(alloc: Global, report: &Report) -> Result<Vec<u8>, AllocError>
    ensures { IfOk result (λ text. text.items ≡ report_line report.now.written.items report.now.removed.items) }
{
    let mut text = Vec::from_slice(alloc, b"ok written")?;
    put_numbers(&mut text, &report.written)?;
    text.extend_from_slice(b" removed")?;
    put_numbers(&mut text, &report.removed)?;
    text.push(b'\n')?;
    Ok(text)
}

/// Returns the answer to a refused edit. `OutOfMemory` has none: it is an error here, as a failed allocation is.
#[tactic(auto, unfolding(crate::specs::Answer::refusal))]
pub fn refusal(alloc: Global, error: EditError) -> Result<Vec<u8>, AllocError>
    ensures text { IfOk result (λ text. text.items ≡ refusal error) }
    ensures refused { OnOk result (error ≢ EditError.OutOfMemory) }
{
    match error {
        EditError::OutOfMemory => Err(AllocError),
        _ => {
            let mut text = Vec::from_slice(alloc, b"error ")?;
            text.extend_from_slice(error.name().as_bytes())?;
            text.push(b'\n')?;
            Ok(text)
        }
    }
}

#[tactic(auto, unfolding(crate::specs::Answer::fault_line))]
fn put_fault(text: &mut Vec<u8>, fault: &Fault) -> Result<(), AllocError>
    ensures { OnOk result (text.new.items ≡ text.old.items ++ fault_line fault.now) }
{
    put_number(text, fault.line)?;
    text.push(b':')?;
    put_number(text, fault.column)?;
    text.push(b' ')?;
    text.extend_from_slice(fault.code.name().as_bytes())?;
    text.push(b'\n')?;
    Ok(())
}

/// Returns the faults of a text, a line each, and `end`. It returns an error if an allocation fails.
#[tactic(auto, unfolding(crate::specs::Answer::fault_list))]
pub fn fault_list(alloc: Global, faults: &[Fault]) -> Result<Vec<u8>, AllocError>
    ensures { IfOk result (λ text. text.items ≡ fault_list faults.now) }
{
    let mut text = Vec::new(alloc);
    for fault in faults {
        put_fault(&mut text, fault)?;
    }
    text.extend_from_slice(b"end\n")?;
    Ok(text)
}

#[tactic(auto, unfolding(crate::specs::Answer::title_line))]
fn put_title(text: &mut Vec<u8>, title: &Title) -> Result<(), AllocError>
    ensures { OnOk result (text.new.items ≡ text.old.items ++ title_line title.now) }
{
    put_number(text, title.number)?;
    text.push(b' ')?;
    text.extend_from_slice(title.text.as_slice())?;
    text.push(b'\n')?;
    Ok(())
}

/// Returns the titles of a text, a line for each tune, and `end`. It returns an error if an allocation fails.
#[tactic(auto, unfolding(crate::specs::Answer::title_list))]
pub fn title_list(alloc: Global, titles: &[Title]) -> Result<Vec<u8>, AllocError>
    ensures { IfOk result (λ text. text.items ≡ title_list titles.now) }
{
    let mut text = Vec::new(alloc);
    for title in titles {
        put_title(&mut text, title)?;
    }
    text.extend_from_slice(b"end\n")?;
    Ok(text)
}

/// Returns the bytes of a file in upper-case hexadecimal on one line, or `none` if there is no file. It returns an error if an
/// allocation fails.
#[tactic(auto, unfolding(crate::specs::Answer::hex_line))]
pub fn hex_line(alloc: Global, bytes: Option<&[u8]>) -> Result<Vec<u8>, AllocError>
    ensures { IfOk result (λ text. text.items ≡ hex_line (option_map (λ b. b.now) bytes.entry)) }
{
    match bytes {
        Some(bytes) => {
            let mut text = hex::encode_upper(alloc, bytes)?.into_bytes();
            text.push(b'\n')?;
            Ok(text)
        }
        None => Vec::from_slice(alloc, b"none\n"),
    }
}

/// Appends a word, the name of the file of a number, and a line feed. If an allocation fails, the text is as it was.
fn put_file_line(text: &mut Vec<u8>, word: &[u8], number: u32) -> Result<(), AllocError>
    requires { length word.now < 9 }
    ensures ok { OnOk result (text.new.items ≡ text.old.items ++ word.now ++ decimal number ++ codes ".mid\n") }
    ensures unchanged { OnErr result (text.new.items ≡ text.old.items) }
{
    let mut buffer = Buffer::new();
    let digits = buffer.format(number).as_bytes();
    text.reserve(word.len() + digits.len() + FILE_ENDING.len())?;
    text.extend_from_slice(word)?;
    text.extend_from_slice(digits)?;
    text.extend_from_slice(FILE_ENDING)
}

/// Appends the line of a file that was written, or of one that was removed, which has no bytes. The only error is a failed
/// allocation, after which the text is as it was.
#[tactic(auto, unfolding(crate::specs::Answer::stored_line))]
pub fn put_stored(text: &mut Vec<u8>, number: u32, bytes: Option<&[u8]>) -> Result<(), AllocError>
    ensures ok { OnOk result (text.new.items ≡ text.old.items ++ stored_line number (option_copied bytes.entry)) }
    ensures unchanged { OnErr result (text.new.items ≡ text.old.items) }
{
    match bytes {
        Some(_) => put_file_line(text, b"written ", number),
        None => put_file_line(text, b"removed ", number),
    }
}

/// Appends the line of a file that could not be written or removed. The only error is a failed allocation, after which the
/// text is as it was.
#[tactic(auto, unfolding(crate::specs::Answer::failed_line))]
pub fn put_failed(text: &mut Vec<u8>, number: u32) -> Result<(), AllocError>
    ensures ok { OnOk result (text.new.items ≡ text.old.items ++ failed_line number) }
    ensures unchanged { OnErr result (text.new.items ≡ text.old.items) }
{
    put_file_line(text, b"failed ", number)
}
