//! The library as another program calls it: opens a session over a tune, makes an edit, and prints what changed.
#![tactic(auto)]

use abc_fold::Work;
use abc_live::{Edit, EditError, Report, Session};
use std::alloc::{AllocError, Global};
use std::process::ExitCode;
use std::rt::Runtime;

fn main(rt: HostRuntime) -> ExitCode {
    match edit_a_tune(&rt) {
        Ok(()) => ExitCode::SUCCESS,
        Err(error) => {
            let _ = eprintln!(rt; "{error}");
            ExitCode::from(1)
        }
    }
}

/// Edits a text, and prints the length of each file that the last edit changed.
fn edit_a_tune<R: Runtime + AllocGlobal>(rt: &R) -> Result<(), EditError> {
    let mut session = Session::new(rt.alloc())?;
    let mut work = Work::mint(rt);
    let report = change_a_note(rt.alloc(), &mut session, &mut work)?;
    for number in &report.written {
        let length = session.output(*number).unwrap_or(&[]).len();
        let _ = println!(rt; "{number}.mid: {length} bytes");
    }
    Ok(())
}

/// Puts a tune into an empty text, and changes its last note.
fn change_a_note(
    alloc: Global,
    session: &mut Session,
    work: &mut Work,
) -> Result<Report, EditError> {
    let lines = lines_of(alloc, &[b"X:1", b"K:C", b"CDEF|"])?;
    session.apply(&Edit::Insert { at: 1, lines }, work)?;
    let (from, to) = (3, 3);
    let lines = lines_of(alloc, &[b"CDEG|"])?;
    session.apply(&Edit::Replace { from, to, lines }, work)
}

/// Returns each text as a line.
fn lines_of(alloc: Global, texts: &[&[u8]]) -> Result<Vec<Vec<u8>>, AllocError> {
    let mut lines = Vec::new(alloc);
    for text in texts {
        lines.push(Vec::from_slice(alloc, text)?)?;
    }
    Ok(lines)
}
