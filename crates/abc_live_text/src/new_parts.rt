//! The parts of a kept text that an edit folds again.

ghost use Rattle.std.specs.Prelude.{◌≡◌, ◌+◌, ◌-◌, ◌≤◌, ◌++◌, All, IfOk, OnOk, drop, length, map, take};
ghost use Rattle.std.specs.List.{sum_by};
ghost use Rattle.abc_live_text.specs.Blocks.{tunes_among};
ghost use Rattle.abc_live_text.specs.Lead.{IsKeptOpening};
ghost use Rattle.abc_live_text.specs.NewParts.{ForSplice, AreNewParts, IsSpan, edited_rows, span_rows, view_of_new_parts};
ghost use Rattle.abc_live_text.specs.Pieces.{IsCarried, steps_taken};
ghost use Rattle.abc_live_text.specs.ReusedTunes.{AreRefolded};
ghost use Rattle.abc_live_text.specs.Row.{carried_row};
ghost use Rattle.abc_live_text.specs.KeptText.{fresh_cells_in};
ghost use Rattle.abc_fold.specs.Work.{IsRaisedUpTo};

use crate::chains::tune_opening;
use crate::item_splice::ItemSplice;
use crate::kept_text::KeptText;
use crate::origin::{CarriedRow, item_at, rows_with_origins};
use crate::refold::Refold;
use crate::refolded_tunes::RefoldedTunes;
use crate::row::Row;
use crate::stretch::{Span, Stretch, span_of};
use abc_book::Block;
use abc_fold::{Chain, Counts, Fold, Shared};
use abc_tune_compiler::Compiler;
use std::alloc::{AllocError, Global};

/// The parts that an edit folds again: the tunes of a stretch, and the file header's chain if that may change.
#[derive(Drop)]
pub(crate) struct NewParts<C: Compiler> {
    pub(crate) stretch: Stretch,
    pub(crate) header: Option<Block>,
    pub(crate) first: Option<Shared<Chain<C>>>,
    pub(crate) folded: RefoldedTunes<C>,
}

/// Appends rows.
fn append_rows<K: Drop>(
    rows: &mut Vec<CarriedRow<K>>,
    more: &[CarriedRow<K>],
    from: usize,
    to: usize,
) -> Result<(), AllocError>
    requires order { from ≤ to }
    requires inside { to ≤ length more.now }
    ensures { OnOk result (rows.new.items ≡ rows.old.items ++ take (to - from) (drop from more.now)) }
{
    for i in from..to {
        let row = more[i].share()?;
        rows.push(row)?;
    }
    Ok(())
}

/// Appends new rows, whose cells no chain holds.
fn append_new<K: Drop>(rows: &mut Vec<CarriedRow<K>>, new: &[Row<K>]) -> Result<(), AllocError>
    ensures { OnOk result (rows.new.items ≡ rows.old.items ++ map carried_row new.now) }
{
    for i in 0..new.len() {
        let row = new[i].with_origin(None)?;
        rows.push(row)?;
    }
    Ok(())
}

/// Returns the rows of a stretch after an edit.
pub(crate) fn edited_rows<K: Drop>(
    alloc: Global,
    old: &[CarriedRow<K>],
    splice: &ItemSplice<Row<K>>,
) -> Result<Vec<CarriedRow<K>>, AllocError>
    requires { splice.now.at + splice.now.removed ≤ length old.now }
    ensures { IfOk result (λ rows. rows.items ≡ edited_rows splice.now.at splice.now.removed splice.now.new.now old.now) }
{
    let mut rows = Vec::new(alloc);
    append_rows(&mut rows, old, 0, splice.at)?;
    append_new(&mut rows, splice.new)?;
    append_rows(&mut rows, old, splice.at + splice.removed, old.len())?;
    Ok(rows)
}

impl<C: Compiler> KeptText<C> {
    /// Returns the rows of a stretch that begins with a tune, after an edit of its lines.
    fn span_rows(
        &self,
        span: Span,
        splice: &ItemSplice<Row<C::Cell>>,
    ) -> Result<Vec<CarriedRow<C::Cell>>, AllocError>
        requires { IsSpan self.now.tunes (length self.now.lines.text) splice.now.at splice.now.removed span }
        ensures value { let s = splice.now in IfOk result (λ rows. rows.items ≡ span_rows self.now span s.at s.removed s.new.now) }
        ensures carried { IfOk result (λ rows. All (IsCarried self.now.chains.items) rows.items) }
    {
        let alloc = self.lines.allocator();
        let places = &self.tunes[span.tunes.from..span.tunes.to];
        let old = rows_with_origins(
            alloc,
            &self.rows,
            span.lines.from,
            span.lines.to,
            span.tunes.from + 1,
            places,
        )?;
        let inside = ItemSplice {
            at: splice.at - span.lines.from,
            removed: splice.removed,
            new: splice.new,
        };
        let rows = edited_rows(alloc, &old, &inside)?;
        Ok(rows)
    }

    /// Returns the state in which tunes begin, by the chain that is kept of the file header.
    pub(crate) fn kept_opening(&self) -> C::State
        ensures { IsKeptOpening (C.rules self.now.compiler) self.now result }
    {
        let first = item_at(&self.chains, 0).get();
        tune_opening(self.lines.allocator(), &self.compiler, self.header, first)
    }

    /// Folds the tunes among rows again, each begun in this state.
    pub(crate) fn refold_rows(
        &self,
        opening: &C::State,
        rows: &[CarriedRow<C::Cell>],
        work: &mut C::Work,
    ) -> Result<RefoldedTunes<C>, AllocError>
        requires { All (IsCarried self.now.chains.items) rows.now }
        ensures value { let c = self.now.compiler in
            IfOk result (λ r. AreRefolded (C.steps c) self.now.chains.items opening.now rows.now
            r.tunes.items r.new_chains.items r.reused_tunes.items) }
        ensures counted { let c = self.now.compiler in
            IsRaisedUpTo (sum_by (steps_taken (C.steps c) opening.now self.now.chains.items rows.now) (tunes_among rows.now))
            (C.Work.counts work.old) (C.Work.counts work.new) }
    {
        let refold = Refold {
            fold: &self.compiler,
            opening,
            chains: &self.chains,
            rows,
        };
        refold.refold_tunes(work)
    }

    /// Folds the tunes of the stretch again, if a tune begins before the edit.
    fn refold_stretch(
        &self,
        span: Span,
        splice: &ItemSplice<Row<C::Cell>>,
        work: &mut C::Work,
    ) -> Result<NewParts<C>, AllocError>
        requires span { IsSpan self.now.tunes (length self.now.lines.text) splice.now.at splice.now.removed span }
        requires inside { splice.now.at + splice.now.removed ≤ length self.now.lines.text }
        ensures new_parts { let c = self.now.compiler in ForSplice (C.rules c) splice.now (λ s.
            IfOk result (λ r. AreNewParts (C.steps c) (C.rules c) self.now s (view_of_new_parts r))) }
        ensures counted { let c = self.now.compiler in ForSplice (C.rules c) splice.now (λ s.
            IsRaisedUpTo (fresh_cells_in (C.steps c) (C.rules c) self.now s) (C.Work.counts work.old) (C.Work.counts work.new)) }
    {
        // For the prover: the parts are those of the text.
        let _ = self.lines();
        let rows = self.span_rows(span, splice)?;
        let opening = self.kept_opening();
        let folded = self.refold_rows(&opening, &rows, work)?;
        Ok(NewParts {
            stretch: span.stretch(rows.len()),
            header: self.header,
            first: None,
            folded,
        })
    }

    /// Folds again what an edit may change.
    pub(crate) fn refold(
        &self,
        splice: &ItemSplice<Row<C::Cell>>,
        work: &mut C::Work,
    ) -> Result<NewParts<C>, AllocError>
        requires { splice.now.at + splice.now.removed ≤ length self.now.lines.text }
        ensures new_parts { let c = self.now.compiler in ForSplice (C.rules c) splice.now (λ s.
            IfOk result (λ r. AreNewParts (C.steps c) (C.rules c) self.now s (view_of_new_parts r))) }
        ensures counted { let c = self.now.compiler in ForSplice (C.rules c) splice.now (λ s.
            IsRaisedUpTo (fresh_cells_in (C.steps c) (C.rules c) self.now s) (C.Work.counts work.old) (C.Work.counts work.new)) }
    {
        match span_of(&self.tunes, self.lines.len(), splice.at, splice.removed) {
            None => self.refold_from_start(splice, work),
            Some(span) => self.refold_stretch(span, splice, work),
        }
    }
}
