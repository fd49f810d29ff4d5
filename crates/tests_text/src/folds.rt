//! Steps of any fold, through its bounds alone.

ghost use Rattle.std.specs.Prelude.{◌≡◌, ◌≤◌, IfOk, OnOk};
ghost use Rattle.abc_fold.specs.Work.{after_steps, raised};

use crate::chains::{Counted, Counting};
use abc_fold::{Counts, Fold, Work};
use std::alloc::{AllocError, Global};

/// Takes two steps of any fold, one after the other: the results are those of its definition, and two steps are counted.
/// If an allocation fails, at most two are counted.
#[tactic(auto, using(abc_fold::proofs::Raised::raising))]
pub fn two_steps<F: Fold>(
    fold: &F,
    alloc: Global,
    opening: &F::State,
    first: &F::Cell,
    second: &F::Cell,
    work: &mut F::Work,
) -> Result<(F::State, F::Items, F::Items), AllocError>
    ensures state_after { let between = (F.steps fold.now).next opening.now first.now in
        IfOk result (λ made. made.0 ≡ (F.steps fold.now).next between second.now) }
    ensures items_of_first { IfOk result (λ made. made.1 ≡ (F.steps fold.now).gives opening.now first.now) }
    ensures items_of_second { let between = (F.steps fold.now).next opening.now first.now in
        IfOk result (λ made. made.2 ≡ (F.steps fold.now).gives between second.now) }

    ensures counted { OnOk result (F.Work.counts work.new ≡ after_steps (F.Work.counts work.old) 2) }
    ensures at_most { (F.Work.counts work.new).folded ≤ raised (F.Work.counts work.old).folded 2 }
    ensures no_line { (F.Work.counts work.new).scanned ≡ (F.Work.counts work.old).scanned }
    ensures no_tune { (F.Work.counts work.new).built ≡ (F.Work.counts work.old).built }
{
    let (between, of_first) = fold.step(alloc, opening, first, work)?;
    let (after, of_second) = fold.step(alloc, &between, second, work)?;
    Ok((after, of_first, of_second))
}

// The three numbers of any counters.
pub fn numbers_of<W: Counts>(work: &W) -> (u64, u64, u64)
    ensures scanned { result.0 ≡ (W.counts work.now).scanned }
    ensures folded { result.1 ≡ (W.counts work.now).folded }
    ensures built { result.2 ≡ (W.counts work.now).built }
{
    (work.scanned(), work.folded(), work.built())
}

// Two numbers are added to 3, through the bounds alone. Not in ABC 2.1.
pub fn two_numbers_are_added(
    alloc: Global,
    work: &mut Work,
) -> Result<(Counted, u8, u8), AllocError>
    ensures total { IfOk result (λ made. made.0.count ≡ 12) }
    ensures cells { IfOk result (λ made. made.0.mark ≡ 2) }
    ensures items_of_first { IfOk result (λ made. made.1 ≡ 3) }
    ensures items_of_second { IfOk result (λ made. made.2 ≡ 7) }
    ensures counted { OnOk result (work.new ≡ after_steps work.old 2) }
{
    two_steps(
        &Counting,
        alloc,
        &Counted { count: 3, mark: 0 },
        &4,
        &5,
        work,
    )
}
