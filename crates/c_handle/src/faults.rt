//! The call that reads the faults of a session.

ghost use Rattle.std.specs.Prelude.{◌≡◌, ◌≤◌, ◌++◌, drop, length, map, option_map};
ghost use Rattle.c_handle.specs.Slot.{session_in};
ghost use Rattle.c_handle.specs.Copies.{copy_answer, slot_answer};
ghost use Rattle.c_handle.specs.Faults.{faults_in, record_of};

use crate::codes::{CODE_OK, CODE_SHORT_BUFFER};
use crate::copying::CopyAnswer;
use crate::fault_record::FaultRecord;
use crate::slot::{SessionSlot, read_session};
use abc_live::Fault;
use std::alloc::Global;

/// Writes the records of faults over the front of a buffer that has room for them.
fn put_records(faults: &[Fault], records: &mut [FaultRecord])
    requires { length faults.now ≤ length records.old }
    ensures value { records.new ≡ map record_of faults.now ++ drop (length faults.now) records.old }
{
    for (at, fault) in faults.iter().enumerate() {
        records[at] = FaultRecord::of(*fault);
    }
}

/// Copies faults if they fit, and returns their number.
fn copy_records(faults: &[Fault], records: &mut [FaultRecord]) -> CopyAnswer
    ensures value { (result.code, result.count, records.new) ≡ copy_answer (map record_of faults.now) records.old }
{
    let count = faults.len();
    if count > records.len() {
        return CopyAnswer {
            code: CODE_SHORT_BUFFER,
            count,
        };
    }
    put_records(faults, records);
    CopyAnswer {
        code: CODE_OK,
        count,
    }
}

/// Copies the faults of the text, in order.
pub fn copy_faults(alloc: Global, slot: &mut SessionSlot, records: &mut [FaultRecord]) -> CopyAnswer
    ensures unchanged { session_in slot.new ≡ session_in slot.old }
    ensures empty { session_in slot.old ≡ None → slot.new ≡ slot.old }
    ensures value { (result.code, result.count, records.new)
        ≡ slot_answer (option_map faults_in (session_in slot.old)) records.old }
{
    read_session!(slot, alloc, session => copy_records(session.session.faults(), records))
}
