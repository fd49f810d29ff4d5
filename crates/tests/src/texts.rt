//! Sessions and edits that have to succeed. A failed allocation ends the test, so that nothing is dropped on the way.

use abc_fold::Work;
use abc_live::{Edit, Session};
use std::alloc::Global;
use std::process::Abort;

/// A session over no lines.
pub fn empty_session(rt: &impl Abort, alloc: Global) -> Session {
    Session::new(alloc).expect(rt, "there is memory")
}

/// Each text as a line.
pub fn lines_of(rt: &impl Abort, alloc: Global, texts: &[&[u8]]) -> Vec<Vec<u8>> {
    let mut lines = Vec::new(alloc);
    for text in texts {
        let line = Vec::from_slice(alloc, text).expect(rt, "there is memory");
        lines.push(line).expect(rt, "there is memory");
    }
    lines
}

/// The edit that puts lines in front of the text.
pub fn insertion(rt: &impl Abort, alloc: Global, texts: &[&[u8]]) -> Edit {
    let lines = lines_of(rt, alloc, texts);
    Edit::Insert { at: 1, lines }
}

/// The edit that replaces a line by another.
pub fn replacement(rt: &impl Abort, alloc: Global, at: u32, line: &[u8]) -> Edit {
    let lines = lines_of(rt, alloc, &[line]);
    let (from, to) = (at, at);
    Edit::Replace { from, to, lines }
}

/// Edits the text.
pub fn apply(rt: &impl Abort, session: &mut Session, edit: Edit, work: &mut Work) {
    assert!(rt; session.apply(&edit, work).is_ok());
}
