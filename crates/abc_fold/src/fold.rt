//! Folds over cells, step by step, which can be resumed from a stored state.

ghost use Rattle.std.specs.Prelude.{◌≡◌, Bool, IfOk};
ghost use Rattle.abc_fold.specs.Steps.{IsResumable, Steps};
ghost use Rattle.abc_fold.specs.Work.{after_steps};

use crate::Counts;
use std::alloc::{AllocError, Global};

/// A fold over cells: the items of a cell depend only on the cell and on the state in which it is entered. It can be
/// resumed from a stored state: it knows which states are equivalent, and copies states, cells and items.
pub trait Fold {
    /// The state between two cells.
    type State: Drop;

    /// The input of a step.
    type Cell: Drop;

    /// The output of a step.
    type Items: Drop;

    /// The counters that a step raises.
    type Work: Counts;

    // The fold's own definition: the state after a cell, the items that the cell gives, and which states are equivalent.
    ghost steps: { Self → Steps Self.State Self.Cell Self.Items };

    /// The state after `cell`, and its items, if it is entered in `state`. A step is counted even if an allocation fails.
    fn step(
        &self,
        alloc: Global,
        state: &Self::State,
        cell: &Self::Cell,
        work: &mut Self::Work,
    ) -> Result<(Self::State, Self::Items), AllocError>
        ensures state_after { IfOk result (λ made. made.0 ≡ (steps self.now).next state.now cell.now) }
        ensures items { IfOk result (λ made. made.1 ≡ (steps self.now).gives state.now cell.now) }
        ensures counted { Self.Work.counts work.new ≡ after_steps (Self.Work.counts work.old) 1 };

    /// Whether two states are equivalent. It allocates nothing.
    fn same(a: &Self::State, b: &Self::State) -> bool
        ensures { (fold : Self) → result ≡ (steps fold).alike a.now b.now };

    /// A copy of a state.
    fn copy_state(alloc: Global, state: &Self::State) -> Result<Self::State, AllocError>
        ensures { IfOk result (λ copy. copy ≡ state.now) };

    /// A copy of a cell.
    fn copy_cell(alloc: Global, cell: &Self::Cell) -> Result<Self::Cell, AllocError>
        ensures { IfOk result (λ copy. copy ≡ cell.now) };

    /// A copy of a cell's items.
    fn copy_items(alloc: Global, items: &Self::Items) -> Result<Self::Items, AllocError>
        ensures { IfOk result (λ copy. copy ≡ items.now) };

    // Equivalent states may replace each other.
    ghost resumable: { (fold : Self) → IsResumable (steps fold) };
}
