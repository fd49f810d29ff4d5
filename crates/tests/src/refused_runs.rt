//! Runs in which any request for memory may be refused.

use crate::failing::Failing;
use crate::shelf::Shelf;
use crate::streams::{MemorySink, PieceSource};
use abc_fold::Work;
use abc2midi_live::{RunFault, run};
use std::alloc::Global;
use std::process::Abort;
use std::rt::Runtime;
use tests_memory_layers::report::{again, call, done};

/// The first tune of the transcripts, and its answer.
const FIRST_TUNE: &[u8] = b"insert 1 4\nX:1\nT:A\nK:C\nC\nhex 1\nquit\n";

const EDIT_ANSWER: &[u8] = b"ok written 1 removed\n";

const ANSWERS: &[u8] = b"ok written 1 removed\n\
    4D546864000000060001000201E0\
    4D54726B0000001700FF03014100FF510307A12000FF590200008170FF2F00\
    4D54726B0000000D00903C508170803C4000FF2F00\n";

/// The same tune is built, and the answer.
const BUILD: &[u8] = b"insert 1 4\nX:1\nT:A\nK:C\nC\nbuild\nquit\n";

const BUILD_ANSWERS: &[u8] = b"ok written 1 removed\nwritten 1.mid\nend\n";

/// The same if the store fails to allocate the file.
const FAILED_ANSWERS: &[u8] = b"ok written 1 removed\nfailed 1.mid\nend\n";

/// A sink that takes the answers without an allocation.
fn roomy(rt: &impl Abort, alloc: Global) -> MemorySink {
    let bytes = Vec::with_capacity(alloc, 1_000).expect(rt, "there is memory");
    MemorySink::new(bytes, Failing::Never)
}

/// Two such sinks.
fn two_roomy(rt: &impl Abort, alloc: Global) -> (MemorySink, MemorySink) {
    (roomy(rt, alloc), roomy(rt, alloc))
}

/// Runs commands.
fn run_commands<R: Runtime>(
    rt: &R,
    alloc: Global,
    input: &[u8],
    writer: &mut MemorySink,
) -> Result<(), RunFault> {
    let mut reader = PieceSource::new(input, 1_000, Failing::Never);
    let mut store = Shelf::new(alloc, Failing::Never);
    let mut work = Work::mint(rt);
    run(alloc, None, &mut reader, writer, &mut store, &mut work)
}

/// Whether a run that was refused memory has answered some of its two commands, whole.
fn is_beginning(answered: &[u8], answers: &[u8]) -> bool {
    answered.is_empty() || answered == EDIT_ANSWER || answered == answers
}

#[test]
fn a_run_of_the_first_tune(rt: HostRuntime) {
    let alloc = rt.alloc();
    let (mut first, mut second) = two_roomy(&rt, alloc);
    call(&rt, "run, the first tune");
    match run_commands(&rt, alloc, FIRST_TUNE, &mut first) {
        Ok(()) => assert!(rt; first.written() == ANSWERS),
        Err(fault) => {
            again(&rt);
            assert!(rt; fault == RunFault::Memory && is_beginning(first.written(), ANSWERS));
            assert!(rt; run_commands(&rt, alloc, FIRST_TUNE, &mut second).is_ok());
            assert!(rt; second.written() == ANSWERS);
        }
    }
    done(&rt);
}

/// Whether a run that builds, and was refused memory, ended with that fault, or named its file as failed and went on.
fn is_refused(ended: Option<RunFault>, answered: &[u8]) -> bool {
    match ended {
        Some(fault) => fault == RunFault::Memory && is_beginning(answered, BUILD_ANSWERS),
        None => answered == FAILED_ANSWERS,
    }
}

#[test]
fn a_run_that_builds(rt: HostRuntime) {
    let alloc = rt.alloc();
    let (mut first, mut second) = two_roomy(&rt, alloc);
    call(&rt, "run, a build");
    let ended = run_commands(&rt, alloc, BUILD, &mut first).err();
    if ended.is_some() || first.written() != BUILD_ANSWERS {
        again(&rt);
        assert!(rt; is_refused(ended, first.written()));
        assert!(rt; run_commands(&rt, alloc, BUILD, &mut second).is_ok());
        assert!(rt; second.written() == BUILD_ANSWERS);
    }
    done(&rt);
}
