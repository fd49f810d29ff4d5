//! Jobs that are taken while any request for memory may be refused.

ghost use Rattle.std.specs.Prelude.{IfSome};
ghost use Rattle.abc_publish.specs.Publisher.{maps_of};
ghost use Rattle.tests_live.specs.HeldJobs.{IsUnderWay};

use crate::jobs::{FILE_OF_C, FILE_OF_D, check_newest};
use crate::texts::{apply, empty_session, insertion, replacement};
use abc_fold::Work;
use abc_live::{Edit, Session};
use abc_publish::Publisher;
use std::alloc::Global;
use std::process::Abort;
use std::rt::Runtime;
use tests_live::held_jobs::{HeldJobs, end_older, finish};
use tests_memory_layers::report::{again, call, done, silent};

/// The next job, if there is one; nothing if a request for memory is refused.
fn try_take(publisher: &mut Publisher, session: &Session) -> Option<HeldJobs>
    ensures { IfSome result (λ held. IsUnderWay (maps_of publisher.new) held) }
{
    match publisher.take(session) {
        Ok(Some(job)) => Some(HeldJobs::One(job)),
        Ok(None) => Some(HeldJobs::Nothing),
        Err(_) => None,
    }
}

/// The next job from a number on, if there is one; nothing if a request for memory is refused.
fn try_take_from(publisher: &mut Publisher, session: &Session, from: u32) -> Option<HeldJobs>
    ensures { IfSome result (λ held. IsUnderWay (maps_of publisher.new) held) }
{
    match publisher.take_from(session, from) {
        Ok(Some(job)) => Some(HeldJobs::One(job)),
        Ok(None) => Some(HeldJobs::Nothing),
        Err(_) => None,
    }
}

/// Takes the next job, if there is one. After a refusal the number is still pending, and the job is then taken.
fn take_next<R: Runtime + Abort>(rt: &R, publisher: &mut Publisher, session: &Session) -> HeldJobs
    ensures { IsUnderWay (maps_of publisher.new) result }
{
    match try_take(publisher, session) {
        Some(held) => held,
        None => {
            again(rt);
            assert!(rt; publisher.is_pending(1, session) && !publisher.settled(session));
            try_take(publisher, session).expect(rt, "there is memory")
        }
    }
}

/// The call that ends a job.
fn ending(ends_well: bool) -> &'static str {
    if ends_well {
        "Publisher::done"
    } else {
        "Publisher::failed"
    }
}

/// Ends a job, which allocates nothing.
fn end<R: Runtime>(rt: &R, publisher: &mut Publisher, held: HeldJobs, ends_well: bool)
    requires { IsUnderWay (maps_of publisher.old) held }
{
    silent(rt, ending(ends_well));
    let held = end_older(publisher, held, ends_well);
    done(rt);
    finish(publisher, held);
}

/// Takes a job that carries a file, and ends it.
fn take<R: Runtime + Abort>(
    rt: &R,
    publisher: &mut Publisher,
    session: &Session,
    name: &str,
    file: &[u8],
    ends_well: bool,
) {
    call(rt, name);
    let held = take_next(rt, publisher, session);
    done(rt);
    check_newest(rt, &held, 1, Some(file));
    end(rt, publisher, held, ends_well);
}

/// The jobs of a tune that is there, is changed, and goes.
fn take_all<R: Runtime + Abort>(
    rt: &R,
    alloc: Global,
    publisher: &mut Publisher,
    session: &mut Session,
) {
    let mut work = Work::mint(rt);
    let tune = insertion(rt, alloc, &[b"X:1", b"T:A", b"K:C", b"C"]);
    apply(rt, session, tune, &mut work);
    take(
        rt,
        publisher,
        session,
        "Publisher::take, a new file",
        FILE_OF_C,
        true,
    );
    apply(rt, session, replacement(rt, alloc, 4, b"D"), &mut work);
    take(
        rt,
        publisher,
        session,
        "Publisher::take, another file",
        FILE_OF_D,
        false,
    );
    take(
        rt,
        publisher,
        session,
        "Publisher::take, the same file again",
        FILE_OF_D,
        true,
    );
    apply(rt, session, Edit::Delete { from: 1, to: 4 }, &mut work);
    silent(rt, "Publisher::take, a file that goes");
    let held = take_next(rt, publisher, session);
    done(rt);
    check_newest(rt, &held, 1, None);
    end(rt, publisher, held, true);
}

#[test]
fn jobs_of_a_tune(rt: HostRuntime) {
    let mut session = empty_session(&rt, rt.alloc());
    let mut publisher = Publisher::new(rt.alloc()).expect(&rt, "there is memory");
    take_all(&rt, rt.alloc(), &mut publisher, &mut session);
    assert!(rt; publisher.settled(&session));
}

/// The job of the second of two tunes. After a refusal the number is still pending, and the job is then taken.
fn take_second<R: Runtime + Abort>(rt: &R, publisher: &mut Publisher, session: &Session) -> HeldJobs
    ensures { IsUnderWay (maps_of publisher.new) result }
{
    match try_take_from(publisher, session, 2) {
        Some(held) => held,
        None => {
            again(rt);
            assert!(rt; publisher.is_pending(1, session) && publisher.is_pending(2, session));
            try_take_from(publisher, session, 2).expect(rt, "there is memory")
        }
    }
}

#[test]
fn a_job_from_a_number_on(rt: HostRuntime) {
    let mut session = empty_session(&rt, rt.alloc());
    let mut publisher = Publisher::new(rt.alloc()).expect(&rt, "there is memory");
    let lines: [&[u8]; 8] = [b"X:1", b"K:C", b"C", b"", b"X:2", b"T:A", b"K:C", b"C"];
    let tunes = insertion(&rt, rt.alloc(), &lines);
    apply(&rt, &mut session, tunes, &mut Work::mint(&rt));
    call(&rt, "Publisher::take_from");
    let held = take_second(&rt, &mut publisher, &session);
    done(&rt);
    check_newest(&rt, &held, 2, Some(FILE_OF_C));
    assert!(rt; publisher.is_pending(1, &session));
    finish(&mut publisher, held);
}
