//! All orders of up to eight events on two tunes, against the account.

ghost use Rattle.std.specs.Prelude.{◌<◌};
ghost use Rattle.abc_publish.specs.Publisher.{maps_of};
ghost use Rattle.tests_live.specs.HeldJobs.{IsUnderWay};

use crate::account::{Account, OPENING, Version};
use crate::jobs::{FILE_OF_C, FILE_OF_D, check_newest, take};
use crate::texts::{apply, empty_session, insertion};
use abc_fold::Work;
use abc_live::Session;
use abc_publish::{Job, Publisher};
use std::alloc::Global;
use std::process::Abort;
use tests_live::held_jobs::{HeldJobs, end_newer, end_older, finish};

/// How many events follow one another.
const EVENTS: usize = 8;

/// An event.
#[derive(Clone, Copy)]
enum Event {
    Edited(u32),
    Taken,
    OlderEnds(bool),
    NewerEnds(bool),
}

/// The first event that is tried.
const FIRST_EVENT: Event = Event::Edited(1);

impl Event {
    /// The event that is tried after this one.
    fn next(self) -> Option<Event> {
        match self {
            Event::Edited(1) => Some(Event::Edited(2)),
            Event::Edited(_) => Some(Event::Taken),
            Event::Taken => Some(Event::OlderEnds(true)),
            Event::OlderEnds(true) => Some(Event::OlderEnds(false)),
            Event::OlderEnds(false) => Some(Event::NewerEnds(true)),
            Event::NewerEnds(true) => Some(Event::NewerEnds(false)),
            Event::NewerEnds(false) => None,
        }
    }

    /// Whether the event can happen while `under_way` jobs are under way: a missing job does not end.
    fn can_happen(self, under_way: usize) -> bool {
        match self {
            Event::Edited(_) | Event::Taken => true,
            Event::OlderEnds(_) => under_way >= 1,
            Event::NewerEnds(_) => under_way >= 2,
        }
    }
}

/// The session of each version of both tunes, as the place of `session_of` says.
fn sessions(rt: &impl Abort, alloc: Global, work: &mut Work) -> Vec<Session> {
    let mut sessions = Vec::new(alloc);
    for first in NOTES {
        for second in NOTES {
            let session = session_with(rt, alloc, first, second, work);
            sessions.push(session).expect(rt, "there is memory");
        }
    }
    sessions
}

/// Returns the note of each version, if there is a tune.
const NOTES: [Option<&[u8]>; 3] = [None, Some(b"C"), Some(b"D")];

/// A session over tunes with these notes.
fn session_with(
    rt: &impl Abort,
    alloc: Global,
    first: Option<&[u8]>,
    second: Option<&[u8]>,
    work: &mut Work,
) -> Session {
    let mut session = empty_session(rt, alloc);
    if let Some(note) = second {
        let tune = insertion(rt, alloc, &[b"X:2", b"T:A", b"K:C", note, b""]);
        apply(rt, &mut session, tune, work);
    }
    if let Some(note) = first {
        let tune = insertion(rt, alloc, &[b"X:1", b"T:A", b"K:C", note, b""]);
        apply(rt, &mut session, tune, work);
    }
    session
}

/// The place of the session of the book.
fn place_of(version: Version) -> usize
    ensures { result < 3 }
{
    match version {
        Version::WithC => 1,
        Version::WithD => 2,
        _ => 0,
    }
}

/// The session of an account's book.
fn session_of<'a>(rt: &impl Abort, sessions: &'a [Session], account: Account) -> &'a Session {
    let place = 3 * place_of(account.first.book) + place_of(account.second.book);
    sessions
        .get(place)
        .expect(rt, "there is a session of each book")
}

/// The file of a tune.
fn file_of(version: Version) -> Option<&'static [u8]> {
    match version {
        Version::WithC => Some(FILE_OF_C),
        Version::WithD => Some(FILE_OF_D),
        _ => None,
    }
}

/// Checks what the publisher shows.
fn check(rt: &impl Abort, publisher: &Publisher, session: &Session, account: Account) {
    let first = publisher.is_pending(1, session) == account.first.is_pending();
    let second = publisher.is_pending(2, session) == account.second.is_pending();
    let settled = publisher.settled(session) == account.is_settled();
    assert!(rt; first && second && settled);
}

/// Takes a job, and checks its number and its bytes, or that there is none.
fn check_take(
    rt: &impl Abort,
    publisher: &mut Publisher,
    held: HeldJobs,
    session: &Session,
    account: Account,
) -> (HeldJobs, Account)
    requires { IsUnderWay (maps_of publisher.old) held }
    ensures { IsUnderWay (maps_of publisher.new) result.0 }
{
    let (expected, account) = account.take();
    let before = held.count();
    let held = take(rt, publisher, held, session);
    match expected {
        Some((number, version)) => check_newest(rt, &held, number, file_of(version)),
        None => assert!(rt; held.count() == before),
    }
    (held, account)
}

/// Carries out an event, and returns the jobs and the account after it.
fn after_event(
    rt: &impl Abort,
    publisher: &mut Publisher,
    held: HeldJobs,
    session: &Session,
    account: Account,
    event: Event,
) -> (HeldJobs, Account)
    requires { IsUnderWay (maps_of publisher.old) held }
    ensures { IsUnderWay (maps_of publisher.new) result.0 }
{
    match event {
        Event::Edited(number) => (held, account.edit(number)),
        Event::Taken => check_take(rt, publisher, held, session, account),
        Event::OlderEnds(done) => {
            let number = held.oldest().map_or(0, Job::number);
            let held = end_older(publisher, held, done);
            (held, account.end(number, done))
        }
        Event::NewerEnds(done) => {
            let number = held.newest().map_or(0, Job::number);
            let held = end_newer(publisher, held, done);
            (held, account.end(number, done))
        }
    }
}

/// Tries events one after another, and checks the publisher after each from a place on. Returns how many could happen.
fn try_events(
    rt: &impl Abort,
    alloc: Global,
    sessions: &[Session],
    events: &[Event],
    new: usize,
) -> usize {
    let mut publisher = Publisher::new(alloc).expect(rt, "there is memory");
    let mut held = HeldJobs::Nothing;
    let mut account = OPENING;
    let mut count = 0;
    for event in events {
        if !event.can_happen(held.count()) {
            break;
        }
        let session = session_of(rt, sessions, account);
        (held, account) = after_event(rt, &mut publisher, held, session, account, *event);
        if count >= new {
            check(rt, &publisher, session_of(rt, sessions, account), account);
        }
        count += 1;
    }
    finish(&mut publisher, held);
    count
}

/// Goes on to the next list of events: one up to a place moves on, those after it start again. The place that moved on;
/// None after the last list.
fn move_on(events: &mut [Event; EVENTS], at: usize) -> Option<usize> {
    for i in (0..EVENTS).rev() {
        if i <= at
            && let Some(event) = events[i].next()
        {
            events[i] = event;
            return Some(i);
        }
        events[i] = FIRST_EVENT;
    }
    None
}

/// Each list of events is tried from the start; after one that cannot go on the lists that begin like it are left out.
#[test]
fn all_orders_of_events(rt: HostRuntime) {
    let alloc = rt.alloc();
    let mut work = Work::mint(&rt);
    let sessions = sessions(&rt, alloc, &mut work);
    let mut events = [FIRST_EVENT; EVENTS];
    let mut new = 0;
    for _ in 0..MOST_LISTS {
        let count = try_events(&rt, alloc, &sessions, &events, new);
        match move_on(&mut events, count) {
            Some(place) => new = place,
            None => return,
        }
    }
    panic!(&rt; "there are more lists")
}

/// More lists than there are.
const MOST_LISTS: usize = 10_000_000;
