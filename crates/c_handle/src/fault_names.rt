//! The call that names the codes of faults.

ghost use Rattle.std.specs.Prelude.{◌≡◌, length, slice_get};
ghost use Rattle.c_handle.specs.Copies.{lookup_answer};
ghost use Rattle.c_handle.specs.FaultNames.{IsEachNumbered, code_numbered, name_numbered};

use crate::copying::{CopyAnswer, copy_found};
use abc_fields::FaultCode;

/// The codes, in the order of their numbers.
pub const FAULT_CODES: [FaultCode; 27] = [
    FaultCode::BadReference,
    FaultCode::BadMeter,
    FaultCode::BadUnit,
    FaultCode::BadTempo,
    FaultCode::BadKey,
    FaultCode::BadOrder,
    FaultCode::BadPart,
    FaultCode::BadVoice,
    FaultCode::TooManyVoices,
    FaultCode::BadByte,
    FaultCode::Unclosed,
    FaultCode::BadLength,
    FaultCode::BadTuplet,
    FaultCode::NestedTuplet,
    FaultCode::BadBroken,
    FaultCode::LooseTie,
    FaultCode::EmptyChord,
    FaultCode::BigChord,
    FaultCode::BadEnding,
    FaultCode::FreeBarRest,
    FaultCode::KeyRange,
    FaultCode::MissingKey,
    FaultCode::TempoRange,
    FaultCode::UnknownPart,
    FaultCode::UnevenVoices,
    FaultCode::TuneTooLong,
    FaultCode::BadProgram,
];

/// Returns the code at an index from 0.
fn code_at(codes: &[FaultCode], index: usize) -> Option<FaultCode>
    ensures value { result ≡ slice_get codes.now index }
{
    codes.get(index).copied()
}

/// Returns the code of a number, counted from 1.
fn code_of_number(number: u32) -> Option<FaultCode>
    ensures value { result ≡ code_numbered number }
{
    if number == 0 {
        return None;
    }
    code_at(&FAULT_CODES, number as usize - 1)
}

/// Copies the name of the code of a number: the word that the list of faults prints.
#[tactic(auto, using(crate::proofs::FaultNames::numbered))]
pub fn copy_fault_name(number: u32, bytes: &mut [u8]) -> CopyAnswer
    ensures value { (result.code, result.count, bytes.new) ≡ lookup_answer (name_numbered number) bytes.old }
    ensures exact { IsEachNumbered }
    ensures few { length FAULT_CODES ≡ 27 }
{
    match code_of_number(number) {
        Some(code) => copy_found(Some(code.name().as_bytes()), bytes),
        None => copy_found(None, bytes),
    }
}
