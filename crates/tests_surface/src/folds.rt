//! Folds, chains and counters, by `abc_fold`.

ghost use Rattle.std.specs.Prelude.{◌≡◌, ◌<◌, All, IfOk, length, option_copied, slice_get};
ghost use Rattle.abc_fold.specs.Chain.{Folds, IsKeptAt, no_cells};
ghost use Rattle.abc_fold.specs.Piece.{IsKept, cells_of, steps_needed};
ghost use Rattle.abc_fold.specs.Work.{IsRaisedUpTo, after_steps};

use abc_fold::{Chain, ChainPatch, Counts, Fold, Piece, Work};
use std::alloc::{AllocError, Global};
use std::rt::Runtime;

/// Returns counters at 0.
pub fn new_counters<R: Runtime>(rt: &R) -> Work
    ensures value { result ≡ record { scanned = 0; folded = 0; built = 0 } }
{
    Work::mint(rt)
}

/// Returns the counted lines, steps and tunes.
pub fn counts_of<W: Counts>(work: &W) -> (u64, u64, u64)
    ensures value { result ≡ ((W.counts work.now).scanned, (W.counts work.now).folded, (W.counts work.now).built) }
{
    (work.scanned(), work.folded(), work.built())
}

/// Returns the same of the counters of a runtime.
pub fn counts_of_work(work: &Work) -> (u64, u64, u64)
    ensures value { result ≡ (work.now.scanned, work.now.folded, work.now.built) }
{
    counts_of(work)
}

/// Takes one step.
pub fn one_step<F: Fold>(
    alloc: Global,
    fold: &F,
    state: &F::State,
    cell: &F::Cell,
    work: &mut F::Work,
) -> Result<(F::State, F::Items), AllocError>
    ensures ok { IfOk result (λ made. made.0 ≡ (F.steps fold.now).next state.now cell.now) }
    ensures counted { F.Work.counts work.new ≡ after_steps (F.Work.counts work.old) 1 }
{
    fold.step(alloc, state, cell, work)
}

/// Whether two states are equivalent.
pub fn are_alike<F: Fold>(a: &F::State, b: &F::State) -> bool {
    F::same(a, b)
}

/// Copies a state.
pub fn copy_of_state<F: Fold>(alloc: Global, state: &F::State) -> Result<F::State, AllocError>
    ensures ok { IfOk result (λ copy. copy ≡ state.now) }
{
    F::copy_state(alloc, state)
}

/// Copies a cell.
pub fn copy_of_cell<F: Fold>(alloc: Global, cell: &F::Cell) -> Result<F::Cell, AllocError>
    ensures ok { IfOk result (λ copy. copy ≡ cell.now) }
{
    F::copy_cell(alloc, cell)
}

/// Copies the items of a cell.
pub fn copy_of_items<F: Fold>(alloc: Global, items: &F::Items) -> Result<F::Items, AllocError>
    ensures ok { IfOk result (λ copy. copy ≡ items.now) }
{
    F::copy_items(alloc, items)
}

/// Whether a piece is a cell that is in no chain.
pub fn is_new<F: Fold>(piece: &Piece<F>) -> bool {
    match piece {
        Piece::New(_) => true,
        Piece::Kept { .. } => false,
    }
}

/// Returns a chain without cells.
pub fn empty_chain<F: Fold>(alloc: Global) -> Result<Chain<F>, AllocError>
    ensures value { IfOk result (λ chain. chain ≡ no_cells) }
{
    Chain::new(alloc)
}

/// Prepares a chain over pieces.
pub fn prepare_chain<F: Fold>(
    chain: &Chain<F>,
    fold: &F,
    opening: &F::State,
    pieces: &[Piece<F>],
    work: &mut F::Work,
) -> Result<ChainPatch<F>, AllocError>
    requires { All (IsKept (F.steps fold.now)) pieces.now }
    ensures cells { IfOk result (λ patch. patch.after.cells ≡ cells_of pieces.now) }
    ensures folds { IfOk result (λ patch. Folds (F.steps fold.now) opening.now patch.after) }
    ensures counted { let steps = F.steps fold.now in
        IsRaisedUpTo (steps_needed steps opening.now pieces.now) (F.Work.counts work.old) (F.Work.counts work.new) }
{
    chain.prepare(fold, opening, pieces, work)
}

/// Returns a cell of a chain with its results, for a chain of the same fold.
pub fn reused_cell<F: Fold>(chain: &Chain<F>, i: usize) -> Result<Piece<F>, AllocError>
    requires { i < length chain.now.cells }
    ensures value { IfOk result (λ piece. IsKeptAt chain.now i piece) }
{
    chain.kept(i)
}

/// Commits a patch, and returns how many cells the chain has.
pub fn commit_chain<F: Fold>(chain: &mut Chain<F>, patch: ChainPatch<F>) -> usize
    requires { patch.on ≡ chain.old }
    ensures value { chain.new ≡ patch.after }
    ensures count { result ≡ length patch.after.cells }
{
    chain.commit(patch);
    chain.len()
}

/// Drops a patch, and returns how many cells the chain would have.
pub fn drop_chain<F: Fold>(patch: ChainPatch<F>) -> usize {
    let count = patch.len();
    patch.drop_patch();
    count
}

/// Returns the state in which a cell is entered, and the cell's result.
pub fn entry_and_items_at<F: Fold>(
    chain: &Chain<F>,
    i: usize,
) -> (Option<&F::State>, Option<&F::Items>)
    ensures entry { option_copied result.0 ≡ slice_get chain.now.entries i }
    ensures items { option_copied result.1 ≡ slice_get chain.now.items i }
{
    (chain.entry(i), chain.items(i))
}

/// Returns the same of a patch.
pub fn prepared_parts_at<F: Fold>(
    patch: &ChainPatch<F>,
    i: usize,
) -> (Option<&F::State>, Option<&F::Items>)
    ensures entry { option_copied result.0 ≡ slice_get patch.now.after.entries i }
    ensures items { option_copied result.1 ≡ slice_get patch.now.after.items i }
{
    (patch.entry(i), patch.items(i))
}
