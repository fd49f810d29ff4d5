//! Builds a chain over a tune of a hundred lines, and reuses and copies its pieces.

ghost use Rattle.std.specs.Prelude.{◌<◌, All, length};
ghost use Rattle.abc_bars_body.specs.SameEntry.{bar_steps};
ghost use Rattle.abc_bars_body.specs.declared.entry.Entry.{Entry};
ghost use Rattle.abc_fold.specs.Chain.{Folds};
ghost use Rattle.abc_fold.specs.Piece.{IsKept};

use crate::kept_runs::append_kept;
use abc_bars::BarFold;
use abc_bars_body::Entry;
use abc_bars_items::Items;
use abc_fold::{Chain, Fold, Piece, Work};
use abc_scan::{Cell, scan};
use std::alloc::Global;
use std::process::Abort;
use std::rt::HostRuntime;

/// The number of music lines of the tune.
const LINES: usize = 100;

/// The only cell of a line, to be folded.
fn line_piece(rt: &impl Abort, alloc: Global, line: &[u8], work: &mut Work) -> Piece<BarFold>
    ensures { IsKept bar_steps result }
{
    let tokens = scan(alloc, line, work).expect(rt, "there is memory");
    Piece::New(Cell::new(alloc, tokens).expect(rt, "there is memory"))
}

/// The tune of `X:1`, `K:C` and a hundred lines `CDEF|`.
fn tune(rt: &impl Abort, alloc: Global, work: &mut Work) -> Vec<Piece<BarFold>>
    ensures { All (IsKept bar_steps) result.items }
{
    let mut pieces = Vec::new(alloc);
    for line in 0..LINES + 2 {
        let line: &[u8] = match line {
            0 => b"X:1",
            1 => b"K:C",
            _ => b"CDEF|",
        };
        let piece = line_piece(rt, alloc, line, work);
        pieces.push(piece).expect(rt, "there is memory");
    }
    pieces
}

/// The chain of the fold over the tune.
fn chain_of_tune(rt: &impl Abort, alloc: Global, opening: &Entry, work: &mut Work) -> Chain<BarFold>
    ensures { Folds bar_steps opening.now result }
{
    let mut chain = Chain::new(alloc).expect(rt, "there is memory");
    let pieces = tune(rt, alloc, work);
    let patch = chain
        .prepare(&BarFold, opening, &pieces, work)
        .expect(rt, "there is memory");
    chain.commit(patch);
    chain
}

/// The pieces of a chain, one of them with this line instead of its own.
fn with_line(
    rt: &impl Abort,
    alloc: Global,
    chain: &Chain<BarFold>,
    at: usize,
    line: &[u8],
    work: &mut Work,
) -> Vec<Piece<BarFold>>
    requires { at < length chain.now.cells }
    ensures { (opening : Entry) → Folds bar_steps opening chain.now → All (IsKept bar_steps) result.items }
{
    let mut pieces = Vec::new(alloc);
    let end = chain.len();
    append_kept(chain, &mut pieces, 0, at).expect(rt, "there is memory");
    let piece = line_piece(rt, alloc, line, work);
    pieces.push(piece).expect(rt, "there is memory");
    append_kept(chain, &mut pieces, at + 1, end).expect(rt, "there is memory");
    pieces
}

/// A step from copies of a state and a cell.
fn step_of_copies(
    rt: &impl Abort,
    alloc: Global,
    state: &Entry,
    cell: &Cell,
    work: &mut Work,
) -> (Entry, Items) {
    let state = BarFold::copy_state(alloc, state);
    let state = state.expect(rt, "there is memory");
    let cell = BarFold::copy_cell(alloc, cell);
    let cell = cell.expect(rt, "there is memory");
    let made = BarFold.step(alloc, &state, &cell, work);
    made.expect(rt, "there is memory")
}

/// Whether a step from copies of a chain's state and cell at a place has as many items as the chain, and the same state.
fn repeats_step(
    rt: &impl Abort,
    alloc: Global,
    chain: &Chain<BarFold>,
    i: usize,
    work: &mut Work,
) -> bool
    requires { i < length chain.now.cells }
{
    match chain.kept(i).expect(rt, "there is memory") {
        Piece::New(_) => false,
        Piece::Kept {
            cell,
            entered,
            left,
            items,
        } => {
            let (next, given) = step_of_copies(rt, alloc, &entered, &cell, work);
            let items = BarFold::copy_items(alloc, &items);
            let items = items.expect(rt, "there is memory");
            BarFold::same(&next, &left) && given.items().len() == items.items().len()
        }
    }
}

#[test]
fn lines_of_a_tune_are_copied(rt: HostRuntime) {
    let alloc = rt.alloc();
    let mut work = Work::mint(&rt);
    let opening = Entry::tune(alloc, None);
    let chain = chain_of_tune(&rt, alloc, &opening, &mut work);
    assert!(rt; chain.len() == LINES + 2);
    assert!(rt; work.folded() == 102);
    for i in 0..chain.len() {
        assert!(rt; repeats_step(&rt, alloc, &chain, i, &mut work));
    }
}

#[test]
fn lines_after_an_edit_are_reused(rt: HostRuntime) {
    let alloc = rt.alloc();
    let mut work = Work::mint(&rt);
    let opening = Entry::tune(alloc, None);
    let chain = chain_of_tune(&rt, alloc, &opening, &mut work);
    assert!(rt; chain.len() == LINES + 2);
    let pieces = with_line(&rt, alloc, &chain, 50, b"^CDEF-|", &mut work);
    let patch = chain
        .prepare(&BarFold, &opening, &pieces, &mut work)
        .expect(&rt, "there is memory");
    patch.drop_patch();
    // the new line and the one after it, which its tie reaches
    assert!(rt; work.folded() == 104);
}
