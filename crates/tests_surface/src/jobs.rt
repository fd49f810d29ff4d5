//! Jobs for a directory, by `abc_publish`.

ghost use Rattle.std.specs.Prelude.{◌≡◌, ◌↔◌, IfOk, IsTrue, Some};
ghost use Rattle.abc_publish.specs.Publisher.{IsNextJob, IsSettled, without_job, is_pending, maps_of, stored_as};
ghost use Rattle.abc_publish.specs.Session.{book_in};
ghost use Rattle.abc_publish.specs.declared.slot.Stored.TheVariants.{Unknown};

use abc_live::Session;
use abc_publish::{Compiler, Job, LiveSession, Publisher};
use std::alloc::{AllocError, Global};

/// Returns a publisher of an empty directory.
pub fn empty_directory(alloc: Global) -> Result<Publisher, AllocError> {
    Publisher::new(alloc)
}

/// Takes the next job of ABC.
pub fn next_of_abc(
    publisher: &mut Publisher,
    session: &Session,
) -> Result<Option<Job>, AllocError> {
    publisher.take(session)
}

/// Takes the next job.
pub fn next_job<C: Compiler>(
    publisher: &mut Publisher,
    session: &LiveSession<C>,
) -> Result<Option<Job>, AllocError>
    ensures value { IfOk result (IsNextJob (maps_of publisher.old) (book_in C.steps C.rules session.now).files 0) }
{
    publisher.take(session)
}

/// Takes the next job from a number on.
pub fn next_job_from<C: Compiler>(
    publisher: &mut Publisher,
    session: &LiveSession<C>,
    from: u32,
) -> Result<Option<Job>, AllocError>
    ensures value { IfOk result (IsNextJob (maps_of publisher.old) (book_in C.steps C.rules session.now).files from) }
{
    publisher.take_from(session, from)
}

/// Ends a job that has stored or removed its file.
pub fn end_done(publisher: &mut Publisher, job: Job)
    requires { (maps_of publisher.old).jobs job.number ≡ Some job.bytes }
    ensures value { maps_of publisher.new ≡ without_job (maps_of publisher.old) job.number (stored_as job.bytes) }
{
    publisher.done(job);
}

/// Ends a job that has failed.
pub fn end_failed(publisher: &mut Publisher, job: Job)
    requires { (maps_of publisher.old).jobs job.number ≡ Some job.bytes }
    ensures value { maps_of publisher.new ≡ without_job (maps_of publisher.old) job.number (Some Unknown) }
{
    publisher.failed(job);
}

/// Returns the number and the bytes of a job.
pub fn parts_of_job(job: &Job) -> (u32, Option<&[u8]>) {
    (job.number(), job.bytes())
}

/// Whether a number is pending.
pub fn is_open<C: Compiler>(publisher: &Publisher, n: u32, session: &LiveSession<C>) -> bool
    ensures value { result ≡ is_pending (maps_of publisher.now).directory (book_in C.steps C.rules session.now).files n }
{
    publisher.is_pending(n, session)
}

/// Whether no number is pending and no job is under way.
pub fn is_settled<C: Compiler>(publisher: &Publisher, session: &LiveSession<C>) -> bool
    ensures exact { IsTrue result ↔ IsSettled (maps_of publisher.now) (book_in C.steps C.rules session.now).files }
{
    publisher.settled(session)
}
