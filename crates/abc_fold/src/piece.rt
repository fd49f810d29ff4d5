//! The pieces that a chain is made from.

ghost use Rattle.std.specs.Prelude.{◌≡◌, IfOk, true};
ghost use Rattle.abc_fold.specs.Following.{IsLeftIn};
ghost use Rattle.abc_fold.specs.Piece.{IsKept, cell_of, is_taken, steps_at};
ghost use Rattle.abc_fold.specs.Steps.{IsAlike};
ghost use Rattle.abc_fold.specs.Work.{IsRaisedUpTo, after_steps};

use crate::{Counts, Fold};
use std::alloc::{AllocError, Global};

/// A new cell, or a cell with its states and items from an earlier chain.
#[derive(Drop)]
pub enum Piece<F: Fold> {
    /// A new cell, to be folded.
    New(F::Cell),
    /// A cell, the states in which it was entered and left, and its items.
    Kept {
        cell: F::Cell,
        entered: F::State,
        left: F::State,
        items: F::Items,
    },
}

/// A copy of the cell of a piece.
pub(crate) fn cell_in<F: Fold>(alloc: Global, piece: &Piece<F>) -> Result<F::Cell, AllocError>
    ensures { IfOk result (λ cell. cell ≡ cell_of piece.now) }
{
    match piece {
        Piece::New(cell) | Piece::Kept { cell, .. } => F::copy_cell(alloc, cell),
    }
}

/// The state after a cell and its items, by a step. For the prover: equal states are equivalent.
fn take_step<F: Fold>(
    alloc: Global,
    fold: &F,
    state: &F::State,
    cell: &F::Cell,
    work: &mut F::Work,
) -> Result<(F::State, F::Items), AllocError>
    ensures state_after { IfOk result (λ made. IsAlike (F.steps fold.now) made.0 ((F.steps fold.now).next state.now cell.now)) }
    ensures items { IfOk result (λ made. made.1 ≡ (F.steps fold.now).gives state.now cell.now) }
    ensures counted { F.Work.counts work.new ≡ after_steps (F.Work.counts work.old) 1 }
{
    let (next, items) = fold.step(alloc, state, cell, work)?;
    Ok((next, items))
}

/// Whether the states and items of a kept piece still hold if it is entered in a state. If `known` says so, no states are
/// compared.
pub(crate) fn is_taken<F: Fold>(fold: &F, state: &F::State, piece: &Piece<F>, known: bool) -> bool
    requires { known ≡ true → is_taken (F.steps fold.now) state.now piece.now ≡ true }
    ensures { result ≡ is_taken (F.steps fold.now) state.now piece.now }
{
    if known {
        return true;
    }
    match piece {
        Piece::New(_) => false,
        Piece::Kept { entered, .. } => F::same(entered, state),
    }
}

/// The state after a piece and its items, if it is entered in a state: the kept ones if they still hold, else those of a
/// step.
pub(crate) fn pass_piece<F: Fold>(
    alloc: Global,
    fold: &F,
    state: &F::State,
    piece: &Piece<F>,
    taken: bool,
    work: &mut F::Work,
) -> Result<(F::State, F::Items), AllocError>
    requires sound { IsKept (F.steps fold.now) piece.now }
    requires taken { taken ≡ is_taken (F.steps fold.now) state.now piece.now }
    ensures state_after { IfOk result (λ made. IsAlike (F.steps fold.now) made.0
        ((F.steps fold.now).next state.now (cell_of piece.now))) }
    ensures items { IfOk result (λ made. made.1 ≡ (F.steps fold.now).gives state.now (cell_of piece.now)) }
    ensures left { taken ≡ true → IfOk result (λ made. IsLeftIn made.0 piece.now) }
    ensures counted { IsRaisedUpTo (steps_at (F.steps fold.now) state.now piece.now)
        (F.Work.counts work.old) (F.Work.counts work.new) }
{
    match piece {
        Piece::New(cell) => take_step(alloc, fold, state, cell, work),
        Piece::Kept {
            cell,
            left,
            items,
            ..
        } => {
            if !taken {
                return take_step(alloc, fold, state, cell, work);
            }
            Ok((F::copy_state(alloc, left)?, F::copy_items(alloc, items)?))
        }
    }
}
