//! What edits cost, exactly: new lines, fresh cells, and the tunes that are touched and not remembered.

use crate::texts::{empty_session, insertion, lines_of, replacement};
use abc_fold::Work;
use abc_live::{Edit, LiveSession, Session};
use std::alloc::Global;
use std::process::Abort;
use std::rt::Runtime;
use tests_live::marked_toy::MarkedToy;

/// Whether this many lines were scanned, steps folded and tunes built.
fn is_work(work: &Work, scanned: u64, folded: u64, built: u64) -> bool {
    work.scanned() == scanned && work.folded() == folded && work.built() == built
}

/// Whether a new music line of a tune of four lines costs one line, one cell and `built` tunes.
fn builds<R: Runtime + Abort>(
    rt: &R,
    alloc: Global,
    session: &mut Session,
    music: &[u8],
    built: u64,
) -> bool {
    let mut work = Work::mint(rt);
    let edit = replacement(rt, alloc, 4, music);
    let accepted = session.apply(&edit, &mut work).is_ok();
    accepted && is_work(&work, 1, 1, built)
}

/// Of the tunes that come in turn 64 are remembered: the first one is built again, the last one is not.
#[test]
fn the_last_tunes_are_remembered(rt: HostRuntime) {
    let alloc = rt.alloc();
    let mut session = empty_session(&rt, alloc);
    let tune = insertion(&rt, alloc, &[b"X:1", b"T:A", b"K:C", b"C"]);
    assert!(rt; session.apply(&tune, &mut Work::mint(&rt)).is_ok());
    for length in 2..66 {
        let music = format!(in alloc; "C{length}").expect(&rt, "there is memory");
        assert!(rt; builds(&rt, alloc, &mut session, music.as_bytes(), 1));
    }
    assert!(rt; builds(&rt, alloc, &mut session, b"C", 1));
    assert!(rt; builds(&rt, alloc, &mut session, b"C65", 0));
}

/// Whether an edit of a session over a compiler whose states are never equal costs this.
fn costs<R: Runtime>(
    rt: &R,
    session: &mut LiveSession<MarkedToy>,
    edit: &Edit,
    cost: (u64, u64, u64),
) -> bool {
    let mut work = Work::mint(rt);
    session.apply(edit, &mut work).is_ok() && is_work(&work, cost.0, cost.1, cost.2)
}

/// Two tunes after a file header.
const TWO_TUNES: [&[u8]; 7] = [b"D:5", b"", b"X:1", b"a", b"", b"X:2", b"b"];

/// States that are the same serve, though they are never equal: after a line more in the file header no tune is touched,
/// and after a line more in a tune no cell is fresh. After another byte every cell is.
#[test]
fn states_that_are_the_same_serve(rt: HostRuntime) {
    let alloc = rt.alloc();
    let mut session = LiveSession::with(alloc, MarkedToy).expect(&rt, "there is memory");
    let tunes = insertion(&rt, alloc, &TWO_TUNES);
    assert!(rt; costs(&rt, &mut session, &tunes, (7, 5, 2)));
    let lines = lines_of(&rt, alloc, &[b"T:x"]);
    assert!(rt; costs(&rt, &mut session, &Edit::Insert { at: 2, lines }, (1, 1, 0)));
    let lines = lines_of(&rt, alloc, &[b"c"]);
    assert!(rt; costs(&rt, &mut session, &Edit::Insert { at: 5, lines }, (1, 1, 1)));
    let other = replacement(&rt, alloc, 1, b"D:6");
    assert!(rt; costs(&rt, &mut session, &other, (1, 7, 2)));
}
