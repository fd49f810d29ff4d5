//! The fold over the cells of a performed tune.

ghost use Rattle.std.specs.Prelude.{◌≡◌, IfOk};
ghost use Rattle.abc_fold.specs.Work.{after_steps};
ghost use Rattle.abc_marks_fold.specs.PerformedSteps.{given_alone, performed_resumable, performed_steps};

use crate::marked_step::cell_step;
use crate::performed_cell::PerformedCell;
use crate::performed_state::PerformedState;
use abc_bars_items::{Items, ItemsBuilder};
use abc_bars_voice::Same;
use abc_fold::{Fold, Work};
use abc_marks::{Marks, PerformedItems};
use std::alloc::{AllocError, Global};

/// Returns what a cell gives that has these marks and no items.
fn marks_alone(alloc: Global, marks: Marks) -> Result<PerformedItems, AllocError>
    ensures { IfOk result (λ given. given ≡ given_alone marks) }
{
    let builder = ItemsBuilder::with_capacity(alloc, 0)?;
    let base = Items::new(alloc, builder)?;
    Ok(PerformedItems { base, marks })
}

/// The fold over the cells of a performed tune or file header, from the states of the written reading on.
#[derive(Clone, Copy, Debug, Drop)]
pub struct PerformedFold;

/// The state after a cell, and what it gives.
fn step_of(
    alloc: Global,
    state: &PerformedState,
    cell: &PerformedCell,
    work: &mut Work,
) -> Result<(PerformedState, PerformedItems), AllocError>
    ensures state_after { IfOk result (λ made. made.0 ≡ performed_steps.next state.now cell.now) }
    ensures items { IfOk result (λ made. made.1 ≡ performed_steps.gives state.now cell.now) }
    ensures counted { work.new ≡ after_steps work.old 1 }
{
    match cell {
        PerformedCell::Begin(name) => {
            work.count_folded();
            Ok((state.begin(name)?, marks_alone(alloc, Marks::none())?))
        }
        PerformedCell::End(name) => {
            work.count_folded();
            Ok((state.end(name)?, marks_alone(alloc, Marks::none())?))
        }
        PerformedCell::Directive(marks) => {
            work.count_folded();
            let marks = if state.is_in_block() {
                Marks::none()
            } else {
                marks.share()?
            };
            Ok((state.share()?, marks_alone(alloc, marks)?))
        }
        PerformedCell::Read { base, written } => {
            if state.is_in_block() {
                work.count_folded();
                return Ok((state.share()?, marks_alone(alloc, Marks::none())?));
            }
            let (next, given) = cell_step(alloc, &state.base, base, written, work)?;
            Ok((
                PerformedState {
                    base: next,
                    block: None,
                },
                given,
            ))
        }
    }
}

impl Fold for PerformedFold {
    type State = PerformedState;

    type Cell = PerformedCell;

    type Items = PerformedItems;

    type Work = Work;

    ghost steps = { λ _. performed_steps };

    ghost resumable = { λ _. performed_resumable };

    fn step(
        &self,
        alloc: Global,
        state: &PerformedState,
        cell: &PerformedCell,
        work: &mut Work,
    ) -> Result<(PerformedState, PerformedItems), AllocError> {
        step_of(alloc, state, cell, work)
    }

    fn same(a: &PerformedState, b: &PerformedState) -> bool {
        a.same(b)
    }

    fn copy_state(_alloc: Global, state: &PerformedState) -> Result<PerformedState, AllocError> {
        state.share()
    }

    fn copy_cell(_alloc: Global, cell: &PerformedCell) -> Result<PerformedCell, AllocError> {
        cell.share()
    }

    fn copy_items(_alloc: Global, items: &PerformedItems) -> Result<PerformedItems, AllocError> {
        items.share()
    }
}
