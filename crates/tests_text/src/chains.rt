//! A fold with rarely equal but often equivalent states: a chain resumes at a state with an equal count.

ghost use Rattle.tests_text.specs.Counting.{counting, counting_resumable};

use abc_fold::{Fold, Work};
use std::alloc::{AllocError, Global};

/// The count, and the number of cells, which no item contains.
#[derive(Drop)]
pub struct Counted {
    pub count: u8,
    pub mark: u64,
}

/// Adds numbers up, and starts again at 0. The item of each is the count before it.
#[derive(Drop)]
pub struct Counting;

impl Fold for Counting {
    type State = Counted;

    type Cell = u8;

    type Items = u8;

    type Work = Work;

    ghost steps = { λ _. counting };

    ghost resumable = { λ _. counting_resumable };

    fn step(
        &self,
        _alloc: Global,
        state: &Counted,
        cell: &u8,
        work: &mut Work,
    ) -> Result<(Counted, u8), AllocError> {
        work.count_folded();
        let count = if *cell == 0 {
            0
        } else {
            state.count.saturating_add(*cell)
        };
        let mark = state.mark.saturating_add(1);
        Ok((Counted { count, mark }, state.count))
    }

    fn same(a: &Counted, b: &Counted) -> bool {
        a.count == b.count
    }

    fn copy_state(_alloc: Global, state: &Counted) -> Result<Counted, AllocError> {
        Ok(Counted {
            count: state.count,
            mark: state.mark,
        })
    }

    fn copy_cell(_alloc: Global, cell: &u8) -> Result<u8, AllocError> {
        Ok(*cell)
    }

    fn copy_items(_alloc: Global, items: &u8) -> Result<u8, AllocError> {
        Ok(*items)
    }
}
