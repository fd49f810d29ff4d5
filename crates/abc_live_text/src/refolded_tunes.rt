//! The tunes of a stretch, folded again.

ghost use Rattle.std.specs.Prelude.{IfOk};
ghost use Rattle.abc_live_text.specs.Refold.{IsRefold, all_refold_steps};
ghost use Rattle.abc_live_text.specs.ReusedTunes.{AreRefolded};
ghost use Rattle.abc_fold.specs.Work.{IsRaisedUpTo};

use crate::blocks::{blocks_of, tunes_in};
use crate::refold::Refold;
use crate::reused_tunes::reused_tunes;
use abc_book::Block;
use abc_fold::{Chain, Counts, Fold, Shared};
use std::alloc::AllocError;

/// The tunes of a stretch, their chains, and for each the old tune that has exactly its items, if one is known.
#[derive(Drop)]
pub(crate) struct RefoldedTunes<F: Fold> {
    pub(crate) tunes: Vec<Block>,
    pub(crate) new_chains: Vec<Shared<Chain<F>>>,
    pub(crate) reused_tunes: Vec<Option<usize>>,
}

impl<F: Fold> Refold<'_, F> {
    /// Returns the tunes among the rows, folded again.
    pub(crate) fn refold_tunes(&self, work: &mut F::Work) -> Result<RefoldedTunes<F>, AllocError>
        requires { IsRefold (F.steps self.now.fold.now) self.now }
        ensures value { IfOk result (λ r. AreRefolded (F.steps self.now.fold.now) self.now.chains.now.items self.now.opening.now
            self.now.rows.now r.tunes.items r.new_chains.items r.reused_tunes.items) }
        ensures counted { IsRaisedUpTo (all_refold_steps (F.steps self.now.fold.now) self.now)
            (F.Work.counts work.old) (F.Work.counts work.new) }
    {
        let alloc = self.chains.allocator();
        let blocks = blocks_of(alloc, self.rows)?;
        let tunes = tunes_in(alloc, &blocks)?;
        let new_chains = self.tune_chains(&tunes, work)?;
        let reused_tunes = reused_tunes(
            alloc,
            self.fold,
            self.chains,
            &new_chains,
            self.rows,
            &tunes,
        )?;
        Ok(RefoldedTunes {
            tunes,
            new_chains,
            reused_tunes,
        })
    }
}
