//! A publisher on a session that is edited between its calls.

use crate::jobs::{FILE_OF_C, FILE_OF_D, check_newest, take};
use crate::texts::{apply, empty_session, insertion, replacement};
use abc_fold::Work;
use abc_live::{Edit, Session};
use abc_publish::Publisher;
use std::alloc::Global;
use std::process::Abort;
use tests_live::held_jobs::{HeldJobs, end_newer, end_older, finish};

/// The file of a tune without a title, whose note is `C`.
const UNTITLED_C: &[u8] = b"MThd\0\0\0\x06\0\x01\0\x02\x01\xE0\
    MTrk\0\0\0\x12\0\xFFQ\x03\x07\xA1\x20\0\xFFY\x02\0\0\x81p\xFF\x2F\0\
    MTrk\0\0\0\x0D\0\x90\x3CP\x81p\x80\x3C\x40\0\xFF\x2F\0";

/// The file of a tune without a title, whose note is `D`.
const UNTITLED_D: &[u8] = b"MThd\0\0\0\x06\0\x01\0\x02\x01\xE0\
    MTrk\0\0\0\x12\0\xFFQ\x03\x07\xA1\x20\0\xFFY\x02\0\0\x81p\xFF\x2F\0\
    MTrk\0\0\0\x0D\0\x90\x3EP\x81p\x80\x3E\x40\0\xFF\x2F\0";

/// Takes a job for a number, checks its bytes, and ends it.
fn end_next(
    rt: &impl Abort,
    publisher: &mut Publisher,
    session: &Session,
    number: u32,
    file: Option<&[u8]>,
    done: bool,
) {
    let held = take(rt, publisher, HeldJobs::Nothing, session);
    check_newest(rt, &held, number, file);
    let held = end_older(publisher, held, done);
    finish(publisher, held);
}

/// Checks whether a number is pending.
fn check_pending(
    rt: &impl Abort,
    publisher: &Publisher,
    session: &Session,
    number: u32,
    wanted: bool,
) {
    assert!(rt; publisher.is_pending(number, session) == wanted);
}

/// Checks that there is nothing to store.
fn check_settled(rt: &impl Abort, publisher: &mut Publisher, session: &Session) {
    assert!(rt; publisher.settled(session));
    let held = take(rt, publisher, HeldJobs::Nothing, session);
    assert!(rt; held.count() == 0);
    finish(publisher, held);
}

/// Stores the file of a tune whose note is edited meanwhile, so that its new file is pending.
fn edit_while_stored(
    rt: &impl Abort,
    alloc: Global,
    session: &mut Session,
    publisher: &mut Publisher,
    work: &mut Work,
) {
    let tune = insertion(rt, alloc, &[b"X:1", b"T:A", b"K:C", b"C"]);
    apply(rt, session, tune, work);
    let held = take(rt, publisher, HeldJobs::Nothing, session);
    check_newest(rt, &held, 1, Some(FILE_OF_C));
    apply(rt, session, replacement(rt, alloc, 4, b"D"), work);
    let held = end_older(publisher, held, true);
    finish(publisher, held);
    check_pending(rt, publisher, session, 1, true);
}

/// A tune is edited while its file is written, and removed once it is written again; a caller who goes on after its
/// number finds nothing to do.
fn edit_and_remove(
    rt: &impl Abort,
    alloc: Global,
    session: &mut Session,
    publisher: &mut Publisher,
    work: &mut Work,
) {
    edit_while_stored(rt, alloc, session, publisher, work);
    end_next(rt, publisher, session, 1, Some(FILE_OF_D), true);
    apply(rt, session, Edit::Delete { from: 1, to: 4 }, work);
    let later = publisher.take_from(session, 2);
    if let Some(job) = later.expect(rt, "there is memory") {
        panic!(rt; "a job for {}", job.number());
    }
    end_next(rt, publisher, session, 1, None, true);
}

#[test]
fn a_tune_is_edited_and_removed(rt: HostRuntime) {
    let alloc = rt.alloc();
    let mut work = Work::mint(&rt);
    let mut session = empty_session(&rt, alloc);
    let mut publisher = Publisher::new(alloc).expect(&rt, "there is memory");
    edit_and_remove(&rt, alloc, &mut session, &mut publisher, &mut work);
    assert!(rt; publisher.settled(&session));
}

/// A tune is edited while its file is written; then writing the new file fails once.
fn edit_and_fail(
    rt: &impl Abort,
    alloc: Global,
    session: &mut Session,
    publisher: &mut Publisher,
    work: &mut Work,
) {
    edit_while_stored(rt, alloc, session, publisher, work);
    end_next(rt, publisher, session, 1, Some(FILE_OF_D), false);
    check_pending(rt, publisher, session, 1, true);
    end_next(rt, publisher, session, 1, Some(FILE_OF_D), true);
    check_settled(rt, publisher, session);
}

#[test]
fn a_new_file_fails_once(rt: HostRuntime) {
    let alloc = rt.alloc();
    let mut work = Work::mint(&rt);
    let mut session = empty_session(&rt, alloc);
    let mut publisher = Publisher::new(alloc).expect(&rt, "there is memory");
    edit_and_fail(&rt, alloc, &mut session, &mut publisher, &mut work);
}

/// The files of two tunes are written at once, and the first tune is edited before its file is stored.
fn edit_one_of_two(
    rt: &impl Abort,
    alloc: Global,
    session: &mut Session,
    publisher: &mut Publisher,
    work: &mut Work,
) {
    let tunes: [&[u8]; 7] = [b"X:1", b"K:C", b"C", b"", b"X:2", b"K:C", b"C"];
    let tunes = insertion(rt, alloc, &tunes);
    apply(rt, session, tunes, work);
    let held = take(rt, publisher, HeldJobs::Nothing, session);
    check_newest(rt, &held, 1, Some(UNTITLED_C));
    let held = take(rt, publisher, held, session);
    check_newest(rt, &held, 2, Some(UNTITLED_C));
    let held = take(rt, publisher, held, session);
    assert!(rt; held.count() == 2);
    let held = end_newer(publisher, held, true);
    assert!(rt; !publisher.settled(session));
    apply(rt, session, replacement(rt, alloc, 3, b"D"), work);
    let held = end_older(publisher, held, true);
    finish(publisher, held);
    check_pending(rt, publisher, session, 1, true);
    check_pending(rt, publisher, session, 2, false);
    end_next(rt, publisher, session, 1, Some(UNTITLED_D), true);
    check_settled(rt, publisher, session);
}

#[test]
fn one_of_two_tunes_is_edited(rt: HostRuntime) {
    let alloc = rt.alloc();
    let mut work = Work::mint(&rt);
    let mut session = empty_session(&rt, alloc);
    let mut publisher = Publisher::new(alloc).expect(&rt, "there is memory");
    edit_one_of_two(&rt, alloc, &mut session, &mut publisher, &mut work);
}
