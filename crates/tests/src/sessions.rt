//! The session by its public calls, and one over a compiler of its own.

use crate::jobs::FILE_OF_C;
use crate::texts::{empty_session, insertion, replacement};
use abc_fold::Work;
use abc_live::{Edit, EditError, LiveSession, Session};
use std::alloc::Global;
use std::process::Abort;
use tests_live::toy::{Toy, file_of_number};

/// Whether an edit is accepted, and reports that these files were written and those removed.
fn reports(
    session: &mut Session,
    edit: &Edit,
    work: &mut Work,
    written: &[u32],
    removed: &[u32],
) -> bool {
    match session.apply(edit, work) {
        Ok(report) => report.written.as_slice() == written && report.removed.as_slice() == removed,
        Err(_) => false,
    }
}

/// A tune comes in, a line of it is changed, an edit of lines that are not there is refused and changes nothing, and
/// the tune is removed again.
fn edit(rt: &impl Abort, alloc: Global, session: &mut Session, work: &mut Work) {
    let tune = insertion(rt, alloc, &[b"X:1", b"K:C", b"C"]);
    assert!(rt; reports(session, &tune, work, &[1], &[]));
    let note = replacement(rt, alloc, 3, b"D");
    assert!(rt; reports(session, &note, work, &[1], &[]));
    let refused = session.apply(&Edit::Delete { from: 3, to: 4 }, work);
    assert!(rt; matches!(refused, Err(EditError::BadRange)));
    assert!(rt; session.line_count() == 3 && session.line(3) == Some(b"D".as_slice()));
    assert!(rt; session.output(1).is_some());
    assert!(rt; reports(session, &Edit::Delete { from: 1, to: 3 }, work, &[], &[1]));
}

#[test]
fn edits_are_reported(rt: HostRuntime) {
    let alloc = rt.alloc();
    let mut session = empty_session(&rt, alloc);
    edit(&rt, alloc, &mut session, &mut Work::mint(&rt));
    let reason = format!(in alloc; "{}", EditError::BadRange).expect(&rt, "there is memory");
    assert!(rt; reason.as_str() == "the range is not in the text");
}

/// Whether a session shows no tune.
fn shows_nothing(session: &Session) -> bool {
    session.numbers().is_empty() && session.titles().is_empty()
}

/// A prepared edit changes nothing visible, and a dropped one leaves nothing. Once committed, its report is that of the
/// prepared edit.
#[test]
fn an_edit_is_prepared_dropped_and_prepared_again(rt: HostRuntime) {
    let alloc = rt.alloc();
    let mut session = empty_session(&rt, alloc);
    let mut work = Work::mint(&rt);
    let tune = insertion(&rt, alloc, &[b"X:1", b"T:A", b"K:C", b"C"]);
    let patch = session
        .prepare(&tune, &mut work)
        .expect(&rt, "there is memory");
    assert!(rt; shows_nothing(&session));
    patch.drop_patch();
    assert!(rt; shows_nothing(&session));
    let patch = session
        .prepare(&tune, &mut work)
        .expect(&rt, "there is memory");
    let report = session.commit(patch);
    assert!(rt; report.written.as_slice() == &[1][..] && report.removed.as_slice().is_empty());
    assert!(rt; session.output(1) == Some(FILE_OF_C));
}

/// A session over a compiler of its own: of two tunes of one number the first is too long, so the file
/// is that of the second, with the byte of the file header.
#[test]
fn a_toy_file_has_the_default_of_the_file_header(rt: HostRuntime) {
    let alloc = rt.alloc();
    let mut session = LiveSession::with(alloc, Toy).expect(&rt, "there is memory");
    let texts: [&[u8]; 8] = [b"D:5", b"X:1", b"T:a", b"a", b"b", b"c", b"X:1", b"g"];
    let edit = insertion(&rt, alloc, &texts);
    assert!(rt; session.apply(&edit, &mut Work::mint(&rt)).is_ok());
    assert!(rt; file_of_number(&session, 1) == Some(b"5g".as_slice()));
}
