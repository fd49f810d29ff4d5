//! The prepared changes of the parts of a kept text.

ghost use Rattle.std.specs.Prelude.{◌≡◌, ◌+◌, ◌-◌, ◌≤◌, ◌++◌, All, IfOk, OnOk, drop, length, map};
ghost use Rattle.abc_book.specs.Laws.{move_block};
ghost use Rattle.abc_live_text.specs.Pieces.{LiesWithin};
ghost use Rattle.abc_live_text.specs.NewParts.{MayReplaceHeader, chains_after, tunes_after};
ghost use Rattle.abc_live_text.specs.NewPlaces.{MayReplaceTunes, tune_places_after};
ghost use Rattle.abc_live_text.specs.KeptText.{LiesAfter};
ghost use Rattle.abc_lines.specs.GapList.{replaced_run};
ghost use Rattle.abc_lines.specs.declared.limits.TheConstants.{MOST_LINES};

use crate::item_splice::ItemSplice;
use crate::kept_text::KeptText;
use crate::new_parts::NewParts;
use crate::new_places::NewPlaces;
use crate::row::Row;
use crate::stretch::Stretch;
use abc_book::Block;
use abc_fold::{Chain, Fold, Shared};
use abc_lines::SplicePatch;
use abc_tune_compiler::Compiler;
use std::alloc::{AllocError, Global};

/// The prepared changes of the parts of a kept text: its rows, its chains, the places of its tunes, the new places of the
/// stretch, and the parts that were folded again. It must be spent, by `commit` of the text or by `drop_patches`.
pub(crate) struct PartPatches<C: Compiler> {
    pub(crate) rows: SplicePatch<Row<C::Cell>>,
    pub(crate) chains: SplicePatch<Shared<Chain<C>>>,
    pub(crate) tunes: NewPlaces,
    pub(crate) places: Vec<Block>,
    pub(crate) new_parts: NewParts<C>,
}

impl<C: Compiler> PartPatches<C> {
    /// Drops the patches: nothing changes.
    pub(crate) fn drop_patches(self) {
        let PartPatches {
            rows,
            chains,
            tunes: _,
            places: _,
            new_parts: _,
        } = self;
        rows.drop_patch();
        chains.drop_patch();
    }
}

/// Returns the places in the text of the tunes of a stretch.
fn tune_places(alloc: Global, tunes: &[Block], stretch: Stretch) -> Result<Vec<Block>, AllocError>
    requires within { All (LiesWithin stretch.lines.came) tunes.now }
    requires numbers { stretch.lines.from + stretch.lines.came ≤ usize.MAX }
    ensures { IfOk result (λ places. places.items ≡ map (move_block stretch.lines.from) tunes.now) }
{
    let mut places = Vec::new(alloc);
    for i in 0..tunes.len() {
        let block = &tunes[i];
        places.push(Block {
            kind: block.kind,
            from: block.from + stretch.lines.from,
            to: block.to + stretch.lines.from,
        })?;
    }
    Ok(places)
}

/// Appends shares of chains.
fn append_shares<F: Fold>(
    chains: &mut Vec<Shared<Chain<F>>>,
    more: &[Shared<Chain<F>>],
) -> Result<(), AllocError>
    ensures { OnOk result (chains.new.items ≡ chains.old.items ++ more.now) }
{
    for i in 0..more.len() {
        let chain = more[i].share()?;
        chains.push(chain)?;
    }
    Ok(())
}

impl<C: Compiler> KeptText<C> {
    /// Prepares the chains after an edit.
    fn prepare_chains(
        &self,
        stretch: Stretch,
        first: &Option<Shared<Chain<C>>>,
        new_chains: &[Shared<Chain<C>>],
    ) -> Result<SplicePatch<Shared<Chain<C>>>, AllocError>
        requires order { stretch.tunes.from ≤ stretch.tunes.to }
        requires inside { stretch.tunes.to + 1 ≤ length self.now.chains.items }
        requires anew { MayReplaceHeader first.now stretch }
        ensures on { IfOk result (λ patch. patch.on ≡ self.now.chains) }
        ensures after { IfOk result (λ patch. patch.after.items
            ≡ chains_after first.now stretch self.now.chains.items new_chains.now) }
    {
        let alloc = self.lines.allocator();
        // For the prover: the count of chains fits.
        let _ = self.chains.len();
        let mut new = Vec::new(alloc);
        match first {
            None => {
                append_shares(&mut new, new_chains)?;
                let count = stretch.tunes.to - stretch.tunes.from;
                self.chains
                    .splice_prepare(alloc, stretch.tunes.from + 1, count, new)
            }
            Some(first) => {
                new.push(first.share()?)?;
                append_shares(&mut new, new_chains)?;
                self.chains
                    .splice_prepare(alloc, 0, stretch.tunes.to + 1, new)
            }
        }
    }

    /// Prepares the changes of the kept parts.
    pub(crate) fn prepare_patches(
        &self,
        splice: &ItemSplice<Vec<u8>>,
        rows: Vec<Row<C::Cell>>,
        new_parts: NewParts<C>,
    ) -> Result<PartPatches<C>, AllocError>
        requires range { splice.now.at + splice.now.removed ≤ length self.now.lines.text }
        requires order { new_parts.stretch.tunes.from ≤ new_parts.stretch.tunes.to }
        requires inside { new_parts.stretch.tunes.to ≤ length self.now.tunes }
        requires lines { new_parts.stretch.lines.from ≤ new_parts.stretch.lines.to }
        requires beyond { All (LiesAfter new_parts.stretch) (drop new_parts.stretch.tunes.to self.now.tunes) }
        requires within { All (LiesWithin new_parts.stretch.lines.came) new_parts.folded.tunes.items }
        requires anew { MayReplaceHeader new_parts.first new_parts.stretch }
        requires numbers { new_parts.stretch.lines.came ≤ MOST_LINES }
        requires from { new_parts.stretch.lines.from ≤ length self.now.lines.text }
        ensures new_parts { IfOk result (λ p. p.new_parts ≡ new_parts) }
        ensures rows_on { IfOk result (λ p. p.rows.on ≡ self.now.rows) }
        ensures rows { IfOk result (λ p. p.rows.after.items ≡ replaced_run self.now.rows.items splice.now.at splice.now.removed rows.items) }
        ensures chains_on { IfOk result (λ p. p.chains.on ≡ self.now.chains) }
        ensures chains { IfOk result (λ p. p.chains.after.items
            ≡ chains_after p.new_parts.first p.new_parts.stretch self.now.chains.items p.new_parts.folded.new_chains.items) }
        ensures tunes { IfOk result
            (λ p. tune_places_after p.tunes p.new_parts.stretch self.now.tunes p.places.items
            ≡ tunes_after p.new_parts.stretch self.now.tunes p.new_parts.folded.tunes.items) }
        ensures fit { IfOk result (λ p. MayReplaceTunes p.tunes p.new_parts.stretch self.now.tunes p.places.items) }
        ensures places { IfOk result (λ p. p.places.items
            ≡ map (move_block p.new_parts.stretch.lines.from) p.new_parts.folded.tunes.items) }
    {
        let alloc = self.lines.allocator();
        let stretch = new_parts.stretch;
        // For the prover: the text has at most `MOST_LINES` lines.
        let _ = self.lines.len();
        let places = tune_places(alloc, &new_parts.folded.tunes, stretch)?;
        let tunes = NewPlaces::of(alloc, &self.tunes, stretch, &places)?;
        let rows = self
            .rows
            .splice_prepare(alloc, splice.at, splice.removed, rows)?;
        match self.prepare_chains(stretch, &new_parts.first, &new_parts.folded.new_chains) {
            Ok(chains) => Ok(PartPatches {
                rows,
                chains,
                tunes,
                places,
                new_parts,
            }),
            Err(refused) => {
                rows.drop_patch();
                Err(refused)
            }
        }
    }
}
