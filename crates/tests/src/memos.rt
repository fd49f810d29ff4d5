//! The memo of built tunes, in the toy language: which tunes are built once, and which again.

ghost use Rattle.std.specs.Prelude.{◌≡◌, true};
ghost use Rattle.abc_lines.specs.Text.{is_line};

use abc_fold::Work;
use std::alloc::Global;
use std::process::Abort;
use std::rt::Runtime;
use tests_live::memo::ToyMemo;

/// The line of a number below 100.
fn line_of(number: u8) -> [u8; 3]
    ensures { is_line result ≡ true }
{
    [b'c', b'0' + number / 10 % 10, b'0' + number % 10]
}

/// Whether a memo returns the file of a tune of this line after a file header that sets this byte; None if an allocation
/// fails.
fn ask(alloc: Global, memo: &mut ToyMemo, byte: u8, number: u8, work: &mut Work) -> Option<bool> {
    let line = line_of(number);
    let built = memo.ask(alloc, byte, &line, work).ok()?;
    let file = [byte, line[0], line[1], line[2]];
    match &built.bytes {
        Some(bytes) => Some(bytes.get().as_slice() == file.as_slice()),
        None => Some(false),
    }
}

/// The same without a refused request.
fn gives(
    rt: &impl Abort,
    alloc: Global,
    memo: &mut ToyMemo,
    byte: u8,
    number: u8,
    work: &mut Work,
) -> bool {
    ask(alloc, memo, byte, number, work).expect(rt, "there is memory")
}

/// Checks the files of tunes by their header byte and number, and after each how many tunes were built.
fn check_asks(
    rt: &impl Abort,
    alloc: Global,
    memo: &mut ToyMemo,
    work: &mut Work,
    asks: &[(u8, u8, u64)],
) {
    for (byte, number, built) in asks {
        assert!(rt; gives(rt, alloc, memo, *byte, *number, work));
        assert!(rt; work.built() == *built);
    }
}

/// Checks the same from a memo of no tunes.
fn check_first_asks<R: Runtime + Abort>(rt: &R, alloc: Global, asks: &[(u8, u8, u64)]) {
    let mut memo = ToyMemo::new(alloc).expect(rt, "there is memory");
    let mut work = Work::mint(rt);
    check_asks(rt, alloc, &mut memo, &mut work, asks);
}

#[test]
fn a_tune_is_built_once(rt: HostRuntime) {
    check_first_asks(&rt, rt.alloc(), &[(b'0', 1, 1), (b'0', 2, 2), (b'0', 1, 2)]);
}

#[test]
fn the_same_bytes_under_other_defaults_are_built_too(rt: HostRuntime) {
    check_first_asks(&rt, rt.alloc(), &[(b'0', 1, 1), (b'1', 1, 2), (b'0', 1, 2)]);
}

/// The tunes that are asked for after the first 64.
const LATER_ASKS: [(u8, u8, u64); 5] = [
    (b'0', 1, 64),
    (b'0', 65, 65),
    (b'0', 1, 65),
    (b'0', 3, 65),
    (b'0', 2, 66),
];

/// Of 65 tunes the one that was asked for longest ago goes.
#[test]
fn the_tune_last_asked_for_stays(rt: HostRuntime) {
    let alloc = rt.alloc();
    let mut memo = ToyMemo::new(alloc).expect(&rt, "there is memory");
    let mut work = Work::mint(&rt);
    for number in 1..65 {
        assert!(rt; gives(&rt, alloc, &mut memo, b'0', number, &mut work));
    }
    check_asks(&rt, alloc, &mut memo, &mut work, &LATER_ASKS);
}
