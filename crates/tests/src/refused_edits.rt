//! Edits of which any request for memory may be refused: the session then answers as before, and the same edit succeeds.

use crate::alike::are_alike;
use crate::texts::{empty_session, insertion, lines_of, replacement};
use abc_fold::Work;
use abc_live::{Edit, EditError, Report, Session};
use std::alloc::Global;
use std::process::Abort;
use std::rt::Runtime;
use tests_memory_layers::report::{again, call, done, silent};

/// A session, and another one with the same edits, which is never refused memory during the first one's calls.
#[derive(Drop)]
struct Twins {
    session: Session,
    other: Session,
    work: Work,
}

impl Twins {
    fn new<R: Runtime + Abort>(rt: &R, alloc: Global) -> Twins {
        Twins {
            session: empty_session(rt, alloc),
            other: empty_session(rt, alloc),
            work: Work::mint(rt),
        }
    }

    /// The report of an edit of the first one.
    fn report<R: Runtime + Abort>(&mut self, rt: &R, edit: &Edit) -> Report {
        match self.session.apply(edit, &mut self.work) {
            Ok(report) => report,
            Err(refused) => {
                again(rt);
                assert!(rt; matches!(refused, EditError::OutOfMemory));
                assert!(rt; are_alike(&self.session, &self.other));
                let report = self.session.apply(edit, &mut self.work);
                report.expect(rt, "there is memory")
            }
        }
    }

    /// The report of the same edit of the other one, in two steps. Neither dropping it nor committing it allocates.
    fn commit<R: Runtime + Abort>(&mut self, rt: &R, edit: &Edit) -> Report {
        let patch = self.other.prepare(edit, &mut self.work);
        let patch = patch.expect(rt, "there is memory");
        silent(rt, "EditPatch::drop_patch");
        patch.drop_patch();
        done(rt);
        let patch = self.other.prepare(edit, &mut self.work);
        let patch = patch.expect(rt, "there is memory");
        silent(rt, "Session::commit");
        let report = self.other.commit(patch);
        done(rt);
        report
    }

    /// Edits both.
    fn edit<R: Runtime + Abort>(&mut self, rt: &R, name: &str, edit: &Edit) {
        call(rt, name);
        let report = self.report(rt, edit);
        done(rt);
        let other = self.commit(rt, edit);
        assert!(rt; report.written.as_slice() == other.written.as_slice());
        assert!(rt; report.removed.as_slice() == other.removed.as_slice());
        assert!(rt; are_alike(&self.session, &self.other));
    }
}

/// The tune of `X:1`, `K:C`, a comment and a hundred lines `CDEF|`.
fn long_tune(rt: &impl Abort, alloc: Global) -> Edit {
    let mut lines = lines_of(rt, alloc, &[b"X:1", b"K:C", b"% one"]);
    for _ in 0..100 {
        let line = Vec::from_slice(alloc, b"CDEF|").expect(rt, "there is memory");
        lines.push(line).expect(rt, "there is memory");
    }
    Edit::Insert { at: 1, lines }
}

#[test]
fn a_session_over_no_lines(rt: HostRuntime) {
    call(&rt, "Session::new");
    let made = match Session::new(rt.alloc()) {
        Ok(made) => made,
        Err(_) => {
            again(&rt);
            Session::new(rt.alloc()).expect(&rt, "there is memory")
        }
    };
    done(&rt);
    assert!(rt; made.line_count() == 0);
}

#[test]
fn a_note_and_back(rt: HostRuntime) {
    let alloc = rt.alloc();
    let mut twins = Twins::new(&rt, alloc);
    let tune = insertion(&rt, alloc, &[b"X:1", b"T:A", b"K:C", b"C"]);
    twins.edit(&rt, "Session::apply, the first tune", &tune);
    let other = replacement(&rt, alloc, 4, b"D");
    twins.edit(&rt, "Session::apply, another note", &other);
    let back = replacement(&rt, alloc, 4, b"C");
    twins.edit(&rt, "Session::apply, the note as before", &back);
}

#[test]
fn a_comment_goes(rt: HostRuntime) {
    let alloc = rt.alloc();
    let mut twins = Twins::new(&rt, alloc);
    let tune = insertion(&rt, alloc, &[b"X:1", b"K:C", b"C", b"% x", b"D"]);
    twins.edit(&rt, "Session::apply, a tune with a comment", &tune);
    let blank = replacement(&rt, alloc, 4, b"");
    twins.edit(
        &rt,
        "Session::apply, the comment becomes a blank line",
        &blank,
    );
    let gone = Edit::Delete { from: 4, to: 4 };
    twins.edit(&rt, "Session::apply, the blank line goes", &gone);
}

#[test]
fn lines_of_a_long_tune(rt: HostRuntime) {
    let alloc = rt.alloc();
    let mut twins = Twins::new(&rt, alloc);
    let tune = long_tune(&rt, alloc);
    twins.edit(&rt, "Session::apply, a tune of a hundred bars", &tune);
    let comment = replacement(&rt, alloc, 3, b"% two");
    twins.edit(&rt, "Session::apply, another comment", &comment);
    let sharp = replacement(&rt, alloc, 4, b"^CDEF|");
    twins.edit(&rt, "Session::apply, another bar", &sharp);
    let tuplet = replacement(&rt, alloc, 4, b"(3:2:6CDEF|");
    twins.edit(&rt, "Session::apply, a tuplet beyond its bar", &tuplet);
}

#[test]
fn a_file_header(rt: HostRuntime) {
    let alloc = rt.alloc();
    let mut twins = Twins::new(&rt, alloc);
    let lines: [&[u8]; 11] = [
        b"M:2/4", b"", b"X:1", b"K:C", b"C", b"", b"X:2", b"M:4/4", b"L:1/4", b"K:C", b"C",
    ];
    let book = insertion(&rt, alloc, &lines);
    twins.edit(&rt, "Session::apply, a file header and two tunes", &book);
    let meter = replacement(&rt, alloc, 1, b"M:3/4");
    twins.edit(
        &rt,
        "Session::apply, another meter of the file header",
        &meter,
    );
}
