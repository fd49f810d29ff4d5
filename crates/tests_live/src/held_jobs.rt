//! Up to two jobs that are under way.

ghost use Rattle.std.specs.Prelude.{◌≡◌, ◌≢◌, ℕ, Some};
ghost use Rattle.abc_publish.specs.Publisher.{maps_of};
ghost use Rattle.tests_live.specs.HeldJobs.{IsUnderWay};

use abc_publish::{Job, Publisher};

/// The jobs under way, in the order in which they were taken.
pub enum HeldJobs {
    Nothing,
    One(Job),
    Two(Job, Job),
}

impl HeldJobs {
    /// The job that was taken last.
    pub fn newest(&self) -> Option<&Job> {
        match self {
            HeldJobs::Nothing => None,
            HeldJobs::One(job) => Some(job),
            HeldJobs::Two(_, newer) => Some(newer),
        }
    }

    /// The job that was taken first.
    pub fn oldest(&self) -> Option<&Job> {
        match self {
            HeldJobs::Nothing => None,
            HeldJobs::One(job) => Some(job),
            HeldJobs::Two(older, _) => Some(older),
        }
    }

    /// Returns the number of jobs.
    pub fn count(&self) -> usize {
        match self {
            HeldJobs::Nothing => 0,
            HeldJobs::One(_) => 1,
            HeldJobs::Two(_, _) => 2,
        }
    }
}

/// Ends the job that was taken first, if there is one.
pub fn end_older(publisher: &mut Publisher, held: HeldJobs, done: bool) -> HeldJobs
    requires { IsUnderWay (maps_of publisher.old) held }
    ensures { IsUnderWay (maps_of publisher.new) result }
{
    match held {
        HeldJobs::Nothing => HeldJobs::Nothing,
        HeldJobs::One(job) => {
            end(publisher, job, done);
            HeldJobs::Nothing
        }
        HeldJobs::Two(older, newer) => {
            end(publisher, older, done);
            HeldJobs::One(newer)
        }
    }
}

/// Ends the job that was taken second, if there is one.
pub fn end_newer(publisher: &mut Publisher, held: HeldJobs, done: bool) -> HeldJobs
    requires { IsUnderWay (maps_of publisher.old) held }
    ensures { IsUnderWay (maps_of publisher.new) result }
{
    match held {
        HeldJobs::Two(older, newer) => {
            end(publisher, newer, done);
            HeldJobs::One(older)
        }
        held => held,
    }
}

/// Ends all jobs as failed.
pub fn finish(publisher: &mut Publisher, held: HeldJobs)
    requires { IsUnderWay (maps_of publisher.old) held }
{
    match held {
        HeldJobs::Nothing => {}
        HeldJobs::One(job) => publisher.failed(job),
        HeldJobs::Two(older, newer) => {
            end(publisher, older, false);
            publisher.failed(newer);
        }
    }
}

/// Ends a job, as done or as failed.
fn end(publisher: &mut Publisher, job: Job, done: bool)
    requires { (maps_of publisher.old).jobs job.number ≡ Some job.bytes }
    ensures { (n : ℕ) → n ≢ job.number → (maps_of publisher.new).jobs n ≡ (maps_of publisher.old).jobs n }
{
    if done {
        publisher.done(job);
    } else {
        publisher.failed(job);
    }
}
