//! The lines of answers.

use abc_fields::FaultCode;
use abc_text::Sequence;
use abc_tune_compiler::{Fault, Report, Title};
use abc2midi_live_protocol::{fault_list, hex_line, report_line, title_list};
use std::alloc::{AllocError, Global};
use std::rt::Runtime;
use tests_memory_layers::report::{call, done};

/// The answer to an edit that writes two files and removes one.
pub fn answered_edit(rt: &impl Runtime, alloc: Global) -> Result<bool, AllocError> {
    let report = Report {
        written: Vec::from_slice(alloc, &[1, 12])?,
        removed: Vec::from_slice(alloc, &[7])?,
    };
    call(rt, "report_line");
    let text = report_line(alloc, &report)?;
    done(rt);
    Ok(text.as_slice() == b"ok written 1 12 removed 7\n".as_slice())
}

/// One fault.
pub fn listed_fault(rt: &impl Runtime, alloc: Global) -> Result<bool, AllocError> {
    let fault = Fault {
        line: 3,
        column: 2,
        code: FaultCode::BadByte,
    };
    call(rt, "fault_list");
    let text = fault_list(alloc, &[fault])?;
    done(rt);
    Ok(text.as_slice() == b"3:2 BadByte\nend\n".as_slice())
}

/// One title.
pub fn listed_title(rt: &impl Runtime, alloc: Global) -> Result<bool, AllocError> {
    let title = Title {
        number: 12,
        text: Sequence::from_slice(alloc, b"A B")?,
    };
    call(rt, "title_list");
    let text = title_list(alloc, &[title])?;
    done(rt);
    Ok(text.as_slice() == b"12 A B\nend\n".as_slice())
}

/// The bytes of a file.
pub fn hex_bytes(rt: &impl Runtime, alloc: Global) -> Result<bool, AllocError> {
    call(rt, "hex_line");
    let text = hex_line(alloc, Some(b"MT\n"))?;
    done(rt);
    Ok(text.as_slice() == b"4D540A\n".as_slice())
}
