//! Jobs that are taken, and the bytes that they carry.

ghost use Rattle.abc_publish.specs.Publisher.{maps_of};
ghost use Rattle.tests_live.specs.HeldJobs.{IsUnderWay};

use abc_live::Session;
use abc_publish::Publisher;
use std::process::Abort;
use tests_live::held_jobs::HeldJobs;
pub use tests_memory_layers::FILE_OF_C;

/// Takes the next job, if there is one.
pub fn take(
    rt: &impl Abort,
    publisher: &mut Publisher,
    held: HeldJobs,
    session: &Session,
) -> HeldJobs
    requires { IsUnderWay (maps_of publisher.old) held }
    ensures { IsUnderWay (maps_of publisher.new) result }
{
    let taken = publisher.take(session).expect(rt, "there is memory");
    match (held, taken) {
        (held, None) => held,
        (HeldJobs::Nothing, Some(job)) => HeldJobs::One(job),
        (HeldJobs::One(older), Some(newer)) => HeldJobs::Two(older, newer),
        (HeldJobs::Two(_older, _newer), Some(_job)) => panic!(rt; "there are two numbers"),
    }
}

/// The file of a tune `T:A`, `K:C` whose note is `D`, two semitones higher than `C`.
pub const FILE_OF_D: &[u8] = b"MThd\0\0\0\x06\0\x01\0\x02\x01\xE0\
    MTrk\0\0\0\x17\0\xFF\x03\x01A\0\xFFQ\x03\x07\xA1\x20\0\xFFY\x02\0\0\x81p\xFF\x2F\0\
    MTrk\0\0\0\x0D\0\x90\x3EP\x81p\x80\x3E\x40\0\xFF\x2F\0";

/// Checks the number of the job that was taken last, and its bytes.
pub fn check_newest(rt: &impl Abort, held: &HeldJobs, number: u32, file: Option<&[u8]>) {
    let is_expected = match held.newest() {
        Some(job) => job.number() == number && job.bytes() == file,
        None => false,
    };
    assert!(rt; is_expected);
}
