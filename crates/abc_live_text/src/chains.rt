//! The chains of the file header and the tunes of a text.

ghost use Rattle.std.specs.Prelude.{◌≡◌, All, IfOk, IfSome, length, option_copied};
ghost use Rattle.std.specs.List.{AllZip, sum_by};
ghost use Rattle.abc_live_text.specs.Pieces.{IsCarried, IsFolded, LiesWithin};
ghost use Rattle.abc_live_text.specs.Refold.{IsRefold, IsRefoldChain, LiesInRefold, refold_steps};
ghost use Rattle.abc_live_text.specs.Chains.{IsHeaderChain, state_after_chain, header_steps};
ghost use Rattle.abc_fold.specs.Chain.{no_cells};
ghost use Rattle.abc_fold.specs.Work.{IsRaisedUpTo};

use crate::origin::CarriedRow;
use crate::refold::Refold;
use crate::reused_tunes::whole_chain;
use abc_book::Block;
use abc_fold::{Chain, Counts, Fold, Shared};
use abc_lines::GapList;
use abc_tune_compiler::Compiler;
use std::alloc::{AllocError, Global};

impl<F: Fold> Refold<'_, F> {
    /// Returns a new chain of a block.
    fn chain_of(&self, block: &Block, work: &mut F::Work) -> Result<Chain<F>, AllocError>
        requires refold { IsRefold (F.steps self.now.fold.now) self.now }
        requires within { LiesInRefold self.now block.now }
        ensures chain { IfOk result (λ chain. IsRefoldChain (F.steps self.now.fold.now) self.now chain block.now) }
        ensures counted { IsRaisedUpTo (refold_steps (F.steps self.now.fold.now) self.now block.now)
            (F.Work.counts work.old) (F.Work.counts work.new) }
    {
        let pieces = self.pieces_of(block)?;
        let mut chain = Chain::new(self.chains.allocator())?;
        let patch = chain.prepare_pieces(self.fold, self.opening, &pieces, work)?;
        chain.commit(patch);
        Ok(chain)
    }

    /// Returns the chain of a block: an old one if one has exactly the cells of the block and begins in an equivalent state.
    pub(crate) fn chain_over(
        &self,
        block: &Block,
        work: &mut F::Work,
    ) -> Result<Shared<Chain<F>>, AllocError>
        requires refold { IsRefold (F.steps self.now.fold.now) self.now }
        requires within { LiesInRefold self.now block.now }
        ensures chain { IfOk result (λ chain. IsRefoldChain (F.steps self.now.fold.now) self.now chain block.now) }
        ensures counted { IsRaisedUpTo (refold_steps (F.steps self.now.fold.now) self.now block.now)
            (F.Work.counts work.old) (F.Work.counts work.new) }
    {
        let rows = self.rows;
        match whole_chain(
            self.fold,
            self.chains,
            self.opening,
            &rows[block.from..block.to],
        ) {
            Some(chain) => chain.share(),
            None => {
                let chain = self.chain_of(block, work)?;
                Shared::new(self.chains.allocator(), chain)
            }
        }
    }

    /// Returns the chains of tunes.
    pub(crate) fn tune_chains(
        &self,
        blocks: &[Block],
        work: &mut F::Work,
    ) -> Result<Vec<Shared<Chain<F>>>, AllocError>
        requires refold { IsRefold (F.steps self.now.fold.now) self.now }
        requires within { All (LiesInRefold self.now) blocks.now }
        ensures chains { IfOk result (λ chains.
            AllZip (IsRefoldChain (F.steps self.now.fold.now) self.now) chains.items blocks.now) }
        ensures counted { IsRaisedUpTo (sum_by (refold_steps (F.steps self.now.fold.now) self.now) blocks.now)
            (F.Work.counts work.old) (F.Work.counts work.new) }
    {
        let mut chains = Vec::new(self.chains.allocator());
        for block in blocks {
            let chain = self.chain_over(block, work)?;
            chains.push(chain)?;
        }
        Ok(chains)
    }
}

/// Returns a chain without cells and states.
fn empty_chain<F: Fold>(alloc: Global) -> Result<Shared<Chain<F>>, AllocError>
    ensures { IfOk result (λ chain. chain ≡ no_cells) }
{
    let chain = Chain::new(alloc)?;
    Shared::new(alloc, chain)
}

/// Returns the chain of the file header; without a file header, a chain without cells and states.
pub(crate) fn header_chain<C: Compiler>(
    alloc: Global,
    compiler: &C,
    old: &GapList<Shared<Chain<C>>>,
    rows: &[CarriedRow<C::Cell>],
    header: Option<Block>,
    work: &mut C::Work,
) -> Result<Shared<Chain<C>>, AllocError>
    requires carried { All (IsCarried old.now.items) rows.now }
    requires folded { All (IsFolded (C.steps compiler.now)) old.now.items }
    requires within { IfSome header (LiesWithin (length rows.now)) }
    ensures chain { IfOk result (λ chain. IsHeaderChain (C.steps compiler.now)
        (C.rules compiler.now).header rows.now chain header) }
    ensures counted { IsRaisedUpTo (header_steps (C.steps compiler.now)
        (C.rules compiler.now).header old.now.items rows.now header) (C.Work.counts work.old) (C.Work.counts work.new) }
{
    match header {
        None => empty_chain(alloc),
        Some(block) => {
            let first = compiler.header(alloc);
            Refold {
                fold: compiler,
                opening: &first,
                chains: old,
                rows,
            }
            .chain_over(&block, work)
        }
    }
}

/// Returns the state after the file header's last cell, by the header's place and chain. None without a file header.
pub fn header_state<C: Compiler>(header: Option<Block>, chain: &Chain<C>) -> Option<&C::State>
    ensures { option_copied result ≡ state_after_chain header chain.now }
{
    match header {
        Some(_) => chain.entry(chain.len()),
        None => None,
    }
}

/// Returns the state in which tunes begin, by the chain of the file header.
pub(crate) fn tune_opening<C: Compiler>(
    alloc: Global,
    compiler: &C,
    header: Option<Block>,
    chain: &Chain<C>,
) -> C::State
    ensures { result ≡ (C.rules compiler.now).tune (state_after_chain header chain.now) }
{
    compiler.tune(alloc, header_state(header, chain))
}
