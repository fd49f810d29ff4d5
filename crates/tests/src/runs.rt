//! A run of commands: its answers, however the input comes in pieces, and its result if a stream or store fails.

use crate::failing::Failing;
use crate::jobs::{FILE_OF_C, FILE_OF_D};
use crate::shelf::Shelf;
use crate::streams::{MemorySink, PieceSource};
use abc_fold::Work;
use abc2midi_live::{RunFault, run};
use std::alloc::Global;
use std::process::Abort;
use std::rt::Runtime;

/// A command with its lines, and its answer.
type Step = (&'static [u8], &'static [u8]);

/// The first tune of the transcripts.
const FIRST_TUNE: [Step; 3] = [
    (b"insert 1 4\nX:1\nT:A\nK:C\nC\n", b"ok written 1 removed\n"),
    (
        b"hex 1\n",
        b"4D546864000000060001000201E0\
          4D54726B0000001700FF03014100FF510307A12000FF590200008170FF2F00\
          4D54726B0000000D00903C508170803C4000FF2F00\n",
    ),
    (b"quit\n", b""),
];

/// A tune comes, changes and goes, each time with two builds.
const BUILDS: [Step; 10] = [
    (b"insert 1 4\nX:1\nT:A\nK:C\nC\n", b"ok written 1 removed\n"),
    (b"build\n", b"written 1.mid\nend\n"),
    (b"build\n", b"end\n"),
    (b"replace 4 4 1\nD\n", b"ok written 1 removed\n"),
    (b"build\n", b"written 1.mid\nend\n"),
    (b"build\n", b"end\n"),
    (b"delete 1 4\n", b"ok written removed 1\n"),
    (b"build\n", b"removed 1.mid\nend\n"),
    (b"build\n", b"end\n"),
    (b"quit\n", b""),
];

/// Appends bytes to others.
fn put(rt: &impl Abort, bytes: &mut Vec<u8>, more: &[u8]) {
    bytes.extend_from_slice(more).expect(rt, "there is memory");
}

/// The commands one after the other, and bytes after them that have no effect.
fn input_of(rt: &impl Abort, alloc: Global, steps: &[Step]) -> Vec<u8> {
    let mut input = Vec::new(alloc);
    for (command, _) in steps {
        put(rt, &mut input, *command);
    }
    put(rt, &mut input, b"titles\n");
    input
}

/// Returns the number of bytes of the commands.
fn size_of(steps: &[Step]) -> usize {
    let mut size: usize = 0;
    for (command, _) in steps {
        size = size.saturating_add(command.len());
    }
    size
}

/// The answers to the commands that are wholly within the first `bytes` bytes.
fn answers_within(rt: &impl Abort, alloc: Global, steps: &[Step], bytes: usize) -> Vec<u8> {
    let mut answers = Vec::new(alloc);
    let mut size: usize = 0;
    for (command, answer) in steps {
        size = size.saturating_add(command.len());
        if size <= bytes {
            put(rt, &mut answers, *answer);
        }
    }
    answers
}

/// The output of a run, and its end.
#[derive(Drop)]
struct Outcome {
    answers: Vec<u8>,
    fault: Option<RunFault>,
}

impl Outcome {
    /// Of a run with these streams and this store.
    fn of<R: Runtime>(
        rt: &R,
        alloc: Global,
        mut reader: PieceSource<'_>,
        writing: Failing,
        store: &mut Shelf,
    ) -> Outcome {
        let mut writer = MemorySink::new(Vec::new(alloc), writing);
        let mut work = Work::mint(rt);
        let ended = run(alloc, None, &mut reader, &mut writer, store, &mut work);
        Outcome {
            answers: writer.into_bytes(),
            fault: ended.err(),
        }
    }

    /// Whether these are its answers, and it ended so.
    fn gives(&self, answers: &[u8], fault: Option<RunFault>) -> bool {
        self.answers.as_slice() == answers && self.fault == fault
    }
}

/// Whether a run whose input comes in pieces of this many bytes writes all answers.
fn is_whole<R: Runtime + Abort>(rt: &R, alloc: Global, steps: &[Step], most: usize) -> bool {
    let input = input_of(rt, alloc, steps);
    let answered = answers_within(rt, alloc, steps, input.len());
    let reader = PieceSource::new(input.as_slice(), most, Failing::Never);
    let mut store = Shelf::new(alloc, Failing::Never);
    Outcome::of(rt, alloc, reader, Failing::Never, &mut store).gives(answered.as_slice(), None)
}

/// However the input comes in pieces the answers are the same.
#[test]
fn input_in_pieces(rt: HostRuntime) {
    for most in [1, 2, 7, 1_000] {
        assert!(rt;
            is_whole(&rt, rt.alloc(), &FIRST_TUNE, most) && is_whole(&rt, rt.alloc(), &BUILDS, most)
        );
    }
}

/// Whether a run that reads a byte at a time, and whose reads fail after `read` bytes, answers all complete commands.
fn stops_reading<R: Runtime + Abort>(
    rt: &R,
    alloc: Global,
    steps: &[Step],
    read: usize,
    failing: Failing,
) -> bool {
    let input = input_of(rt, alloc, steps);
    let answered = answers_within(rt, alloc, steps, read);
    let reader = PieceSource::new(input.as_slice(), 1, failing);
    let mut store = Shelf::new(alloc, Failing::Never);
    // nothing is read after `quit`
    let fault = if read < size_of(steps) {
        Some(RunFault::Read)
    } else {
        None
    };
    Outcome::of(rt, alloc, reader, Failing::Never, &mut store).gives(answered.as_slice(), fault)
}

/// Checks each read of a run, and one more that does not happen: it fails, and those after it do or do not.
fn check_reads<R: Runtime + Abort>(rt: &R, alloc: Global, steps: &[Step]) {
    for read in 0..=size_of(steps) {
        let call = (read as u64).saturating_add(1);
        assert!(rt;
            stops_reading(rt, alloc, steps, read, Failing::Once(call)),
            "read {call}"
        );
        assert!(rt;
            stops_reading(rt, alloc, steps, read, Failing::ForGood(call)),
            "read {call}"
        );
    }
}

/// Each read fails in turn: the commands that were read whole before it are answered. The second read finds the
/// end of the input; a third one would fail, and does not happen.
#[test]
fn reads_that_fail(rt: HostRuntime) {
    let alloc = rt.alloc();
    check_reads(&rt, alloc, &FIRST_TUNE);
    check_reads(&rt, alloc, &BUILDS);
    let reader = PieceSource::new(b"titles\n", 1_000, Failing::ForGood(3));
    let mut store = Shelf::new(alloc, Failing::Never);
    assert!(rt; Outcome::of(&rt, alloc, reader, Failing::Never, &mut store).gives(b"end\n", None));
}

/// The file `1.mid` after these commands, the first of the transcript of a tune that comes, changes and goes.
fn file_after(steps: &[Step]) -> Option<&'static [u8]> {
    let mut file = None;
    let mut stored = None;
    for (command, _) in steps {
        if command.starts_with(b"insert") {
            file = Some(FILE_OF_C);
        } else if command.starts_with(b"replace") {
            file = Some(FILE_OF_D);
        } else if command.starts_with(b"delete") {
            file = None;
        } else if command.starts_with(b"build") {
            stored = file;
        }
    }
    stored
}

/// Whether a run whose writes fail so writes the answers to these commands alone, and carries out the next one, which has
/// no answer: the store then has this file.
fn stops_writing<R: Runtime + Abort>(
    rt: &R,
    alloc: Global,
    steps: &[Step],
    answered: &[Step],
    file: Option<&[u8]>,
    failing: Failing,
) -> bool {
    let input = input_of(rt, alloc, steps);
    let answered = answers_within(rt, alloc, answered, input.len());
    let reader = PieceSource::new(input.as_slice(), 1_000, Failing::Never);
    let mut store = Shelf::new(alloc, Failing::Never);
    let outcome = Outcome::of(rt, alloc, reader, failing, &mut store);
    outcome.gives(answered.as_slice(), Some(RunFault::Write)) && store.get("1.mid") == file
}

/// Checks each write of a run, one for each command but `quit`: it fails, and those after it do or do not.
fn check_writes<R: Runtime + Abort>(rt: &R, alloc: Global, steps: &[Step]) {
    let (_, asked) = steps.split_last().expect(rt, "there are commands");
    for (at, _) in asked.iter().enumerate() {
        let call = (at as u64).saturating_add(1);
        let answered = &asked[..at];
        let file = file_after(&asked[..=at]);
        assert!(rt;
            stops_writing(rt, alloc, steps, answered, file, Failing::Once(call)),
            "write {call}"
        );
        assert!(rt;
            stops_writing(rt, alloc, steps, answered, file, Failing::ForGood(call)),
            "write {call}"
        );
    }
}

/// Each write fails in turn: the answers before it were written, and no command after it is answered or carried out.
#[test]
fn writes_that_fail(rt: HostRuntime) {
    check_writes(&rt, rt.alloc(), &FIRST_TUNE);
    check_writes(&rt, rt.alloc(), &BUILDS);
}

/// The result of the builds of `BUILDS` if calls of the store fail.
#[derive(Drop)]
struct BuildResults {
    /// How many calls of the store there were.
    calls: u64,
    answers: Vec<u8>,
    file: Option<&'static [u8]>,
}

/// After an edit come two builds, of which the second stores the files that the first could not.
fn build_twice(
    rt: &impl Abort,
    results: &mut BuildResults,
    failing: Failing,
    line: &[u8],
    file: Option<&'static [u8]>,
) {
    let mut is_pending = true;
    for _ in 0..2 {
        if is_pending {
            results.calls = results.calls.saturating_add(1);
            is_pending = failing.at(results.calls);
            if is_pending {
                put(rt, &mut results.answers, b"failed 1.mid\n");
            } else {
                put(rt, &mut results.answers, line);
                results.file = file;
            }
        }
        put(rt, &mut results.answers, b"end\n");
    }
}

/// Returns the result of the builds.
fn results_of_builds(rt: &impl Abort, alloc: Global, failing: Failing) -> BuildResults {
    let answers = Vec::new(alloc);
    let mut results = BuildResults {
        calls: 0,
        answers,
        file: None,
    };
    for file in [Some(FILE_OF_C), Some(FILE_OF_D)] {
        put(rt, &mut results.answers, b"ok written 1 removed\n");
        build_twice(rt, &mut results, failing, b"written 1.mid\n", file);
    }
    put(rt, &mut results.answers, b"ok written removed 1\n");
    build_twice(rt, &mut results, failing, b"removed 1.mid\n", None);
    results
}

/// Checks the output of a run whose store fails so, and the contents of the store.
fn check_store<R: Runtime + Abort>(rt: &R, alloc: Global, failing: Failing) {
    let input = input_of(rt, alloc, &BUILDS);
    let results = results_of_builds(rt, alloc, failing);
    let reader = PieceSource::new(input.as_slice(), 1_000, Failing::Never);
    let mut store = Shelf::new(alloc, failing);
    let answered = results.answers.as_slice();
    assert!(rt; Outcome::of(rt, alloc, reader, Failing::Never, &mut store).gives(answered, None));
    assert!(rt; store.get("1.mid") == results.file);
}

/// Each call of the store fails in turn, once or for good: the file is reported as failed, and the next build tries it
/// again.
#[test]
fn stores_that_fail(rt: HostRuntime) {
    check_store(&rt, rt.alloc(), Failing::Never);
    for call in 1..4 {
        check_store(&rt, rt.alloc(), Failing::Once(call));
        check_store(&rt, rt.alloc(), Failing::ForGood(call));
    }
}

/// Two tunes are built twice, and a store that fails at its second call.
const TWO_TUNES: &[u8] = b"insert 1 7\nX:1\nT:A\nK:C\nC\n\nX:2\nK:C\nbuild\nbuild\n";

/// The second of two files cannot be stored: the build ends there, and the next one goes on with it.
#[test]
fn the_second_file_fails(rt: HostRuntime) {
    let alloc = rt.alloc();
    let reader = PieceSource::new(TWO_TUNES, 1_000, Failing::Never);
    let mut store = Shelf::new(alloc, Failing::Once(2));
    let answered =
        b"ok written 1 2 removed\nwritten 1.mid\nfailed 2.mid\nend\nwritten 2.mid\nend\n";
    assert!(rt; Outcome::of(&rt, alloc, reader, Failing::Never, &mut store).gives(answered, None));
    assert!(rt; store.get("1.mid") == Some(FILE_OF_C) && store.get("2.mid").is_some());
}
