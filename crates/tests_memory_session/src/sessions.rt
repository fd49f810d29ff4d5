//! Sessions in the toy language.

use abc_fold::Work;
use abc_live::{Edit, LiveSession};
use std::alloc::{AllocError, Global};
use std::rt::Runtime;
use tests_live::toy::Toy;
use tests_memory_layers::report::{call, done};
use tests_memory_layers::{lines_of, retry};

/// A session over no lines.
pub fn empty_session(rt: &impl Runtime, alloc: Global) -> Result<bool, AllocError> {
    call(rt, "LiveSession::with");
    let session = LiveSession::with(alloc, Toy)?;
    done(rt);
    Ok(session.line_count() == 0)
}

/// Prepares an edit, and commits it.
fn put(session: &mut LiveSession<Toy>, edit: &Edit, work: &mut Work) -> Result<(), AllocError> {
    match session.prepare(edit, work) {
        Ok(patch) => {
            let _ = session.commit(patch);
            Ok(())
        }
        Err(_) => Err(AllocError),
    }
}

/// A tune of two lines for a session over none.
pub fn prepared_edit<R: Runtime>(rt: &R, alloc: Global) -> Result<bool, AllocError> {
    let mut work = Work::mint(rt);
    let mut session = LiveSession::with(alloc, Toy)?;
    let lines = lines_of(alloc, &[b"X:1", b"c"])?;
    let edit = Edit::Insert { at: 1, lines };
    call(rt, "LiveSession::prepare");
    retry!(
        rt,
        put(&mut session, &edit, &mut work),
        session.line_count() == 0 && session.output(1).is_none(),
        session.line_count() == 2 && session.output(1) == Some(b"0c".as_slice())
    )
}
