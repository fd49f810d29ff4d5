//! Builds a chain of a fold, and reuses its pieces.

use crate::kept_runs::append_kept;
use abc_fold::{Chain, Piece, Work};
use std::process::Abort;
use std::rt::HostRuntime;
use tests_text::chains::{Counted, Counting};

/// Checks the items of a chain, and the number of steps that were folded.
fn check_chain(rt: &impl Abort, chain: &Chain<Counting>, items: &[u8], work: &Work, folded: u64) {
    assert!(rt; chain.len() == items.len());
    for (i, item) in items.iter().enumerate() {
        assert!(rt; chain.items(i) == Some(item));
    }
    assert!(rt; work.folded() == folded);
}

/// The mark of the state in which a cell is entered.
fn mark_at(chain: &Chain<Counting>, i: usize) -> u64 {
    match chain.entry(i) {
        Some(entry) => entry.mark,
        None => 0,
    }
}

#[test]
fn cells_are_reused(rt: HostRuntime) {
    let alloc = rt.alloc();
    let mut work = Work::mint(&rt);
    let opening = Counted { count: 0, mark: 0 };
    let mut chain: Chain<Counting> = Chain::new(alloc).expect(&rt, "there is memory");
    let pieces = vec![in alloc;
        Piece::New(5),
        Piece::New(7),
        Piece::New(0),
        Piece::New(2),
        Piece::New(3),
    ]
    .expect(&rt, "there is memory");
    let patch = chain
        .prepare(&Counting, &opening, &pieces, &mut work)
        .expect(&rt, "there is memory");
    chain.commit(patch);
    check_chain(&rt, &chain, &[0, 5, 12, 0, 2], &work, 5);
    let mut pieces = Vec::new(alloc);
    assert!(rt; chain.len() == 5);
    append_kept(&chain, &mut pieces, 0, 1).expect(&rt, "there is memory");
    pieces.push(Piece::New(9)).expect(&rt, "there is memory");
    append_kept(&chain, &mut pieces, 1, 5).expect(&rt, "there is memory");
    let patch = chain
        .prepare(&Counting, &opening, &pieces, &mut work)
        .expect(&rt, "there is memory");
    chain.commit(patch);
    // the new cell and the two after it, and none from the 0 on, whose states are equivalent to the old ones
    check_chain(&rt, &chain, &[0, 5, 14, 21, 0, 2], &work, 8);
    assert!(rt; mark_at(&chain, 5) == 4);
}
