//! The first lines of a text, which an edit may change if no tune begins before it.

ghost use Rattle.std.specs.Prelude.{◌≡◌, ◌+◌, ◌≤◌, true, All, IfOk, length};
ghost use Rattle.std.specs.List.{sum_by};
ghost use Rattle.abc_live_text.specs.Blocks.{header_among, tunes_among};
ghost use Rattle.abc_live_text.specs.Pieces.{IsCarried, steps_taken};
ghost use Rattle.abc_live_text.specs.Chains.{header_steps};
ghost use Rattle.abc_live_text.specs.Lead.{IsHeaderOpening, MayGoOn, RefoldsLead, lead_rows, whole_lead};
ghost use Rattle.abc_live_text.specs.NewParts.{ForSplice, IsLead, AreNewParts, view_of_new_parts};
ghost use Rattle.abc_live_text.specs.KeptText.{fresh_cells_in};
ghost use Rattle.abc_fold.specs.Work.{IsRaisedUpTo};

use crate::blocks::{blocks_of, header_in, places_of};
use crate::chains::{header_chain, tune_opening};
use crate::item_splice::ItemSplice;
use crate::kept_text::KeptText;
use crate::new_parts::{NewParts, edited_rows};
use crate::origin::{CarriedRow, rows_with_origins};
use crate::row::Row;
use crate::stretch::{Span, lead_of, span_to};
use abc_book::Block;
use abc_fold::{Chain, Counts, Fold, Shared};
use abc_tune_compiler::Compiler;
use std::alloc::AllocError;

/// A file header, if there is one, its chain, and the state in which the tunes after it begin.
#[derive(Drop)]
pub(crate) struct HeaderOpening<C: Compiler> {
    pub(crate) header: Option<Block>,
    pub(crate) first: Shared<Chain<C>>,
    pub(crate) opening: C::State,
}

impl<C: Compiler> KeptText<C> {
    /// Returns the first lines, which an edit ending at `end` may change if no tune begins before it.
    fn lead(&self, end: usize) -> Span
        requires { end ≤ length self.now.lines.text }
        ensures { IsLead self.now.tunes (length self.now.lines.text) end result }
    {
        lead_of(&self.tunes, self.lines.len(), end)
    }

    /// Returns the span of all lines.
    fn whole_lead(&self) -> Span
        ensures { result ≡ whole_lead self.now }
    {
        span_to(self.tunes.len(), self.lines.len())
    }

    /// Returns the rows of the first lines of the text after an edit of them.
    fn lead_rows(
        &self,
        lead: Span,
        splice: &ItemSplice<Row<C::Cell>>,
    ) -> Result<Vec<CarriedRow<C::Cell>>, AllocError>
        requires lead { IsLead self.now.tunes (length self.now.lines.text) (splice.now.at + splice.now.removed) lead }
        requires inside { splice.now.at + splice.now.removed ≤ length self.now.lines.text }
        ensures value { let s = splice.now in IfOk result (λ rows. rows.items ≡ lead_rows self.now lead s.at s.removed s.new.now) }
        ensures carried { IfOk result (λ rows. All (IsCarried self.now.chains.items) rows.items) }
    {
        let alloc = self.lines.allocator();
        let places = places_of(alloc, self.header, &self.tunes[..lead.tunes.to])?;
        let old = rows_with_origins(alloc, &self.rows, 0, lead.lines.to, 0, &places)?;
        let rows = edited_rows(alloc, &old, splice)?;
        Ok(rows)
    }

    /// Returns the file header of a text that begins with these rows, and how tunes begin after it.
    fn header_opening(
        &self,
        rows: &[CarriedRow<C::Cell>],
        work: &mut C::Work,
    ) -> Result<HeaderOpening<C>, AllocError>
        requires { All (IsCarried self.now.chains.items) rows.now }
        ensures value { let c = self.now.compiler in
            IfOk result (λ o. IsHeaderOpening (C.steps c) (C.rules c) rows.now o.header o.first o.opening) }
        ensures counted { let c = self.now.compiler in
            IsRaisedUpTo (header_steps (C.steps c) (C.rules c).header self.now.chains.items rows.now (header_among rows.now))
            (C.Work.counts work.old) (C.Work.counts work.new) }
    {
        let alloc = self.lines.allocator();
        let blocks = blocks_of(alloc, rows)?;
        let header = header_in(&blocks);
        let first = header_chain(alloc, &self.compiler, &self.chains, rows, header, work)?;
        let opening = tune_opening(alloc, &self.compiler, header, first.get());
        Ok(HeaderOpening {
            header,
            first,
            opening,
        })
    }

    /// Whether the tunes from `following` on stay the same if tunes begin in this state.
    fn may_go_on(&self, following: usize, opening: &C::State) -> bool
        ensures sound { let c = self.now.compiler in
            result ≡ true → MayGoOn (C.steps c) (C.rules c) self.now following opening.now }
        ensures found { let c = self.now.compiler in
            MayGoOn (C.steps c) (C.rules c) self.now following opening.now → result ≡ true }
    {
        if self.tunes.len() <= following {
            return true;
        }
        let old_opening = self.kept_opening();
        C::same(&old_opening, opening)
    }

    /// Folds the tunes of the first lines again, by the new file header and the new rows of these lines.
    fn refold_lead(
        &self,
        lead: Span,
        header: HeaderOpening<C>,
        rows: &[CarriedRow<C::Cell>],
        work: &mut C::Work,
    ) -> Result<NewParts<C>, AllocError>
        requires { All (IsCarried self.now.chains.items) rows.now }
        ensures new_parts { let c = self.now.compiler in
            RefoldsLead (C.steps c) (C.rules c) self.now lead rows.now header.header header.first header.opening
            (λ Holds. IfOk result (λ r. Holds (view_of_new_parts r))) }
        ensures counted { let c = self.now.compiler in
            IsRaisedUpTo (sum_by (steps_taken (C.steps c) header.opening self.now.chains.items rows.now)
            (tunes_among rows.now)) (C.Work.counts work.old) (C.Work.counts work.new) }
    {
        // For the prover: the parts are those of the text.
        let _ = self.lines();
        let HeaderOpening {
            header,
            first,
            opening,
        } = header;
        let folded = self.refold_rows(&opening, rows, work)?;
        Ok(NewParts {
            stretch: lead.stretch(rows.len()),
            header,
            first: Some(first),
            folded,
        })
    }

    /// Folds again what an edit changes if no tune begins before it: the file header, and the tunes up to the first
    /// that begins after it. If the new file header changes how tunes begin, all tunes are folded again.
    pub(crate) fn refold_from_start(
        &self,
        splice: &ItemSplice<Row<C::Cell>>,
        work: &mut C::Work,
    ) -> Result<NewParts<C>, AllocError>
        requires { splice.now.at + splice.now.removed ≤ length self.now.lines.text }
        ensures new_parts { let c = self.now.compiler in ForSplice (C.rules c) splice.now (λ s.
            IfOk result (λ r. AreNewParts (C.steps c) (C.rules c) self.now s (view_of_new_parts r))) }
        ensures counted { let c = self.now.compiler in ForSplice (C.rules c) splice.now (λ s.
            IsRaisedUpTo (fresh_cells_in (C.steps c) (C.rules c) self.now s) (C.Work.counts work.old) (C.Work.counts work.new)) }
    {
        // For the prover: the parts are those of the text, and the count of lines fits.
        let _ = self.lines().len();
        let lead = self.lead(splice.at + splice.removed);
        let rows = self.lead_rows(lead, splice)?;
        let header = self.header_opening(&rows, work)?;
        if self.may_go_on(lead.tunes.to, &header.opening) {
            return self.refold_lead(lead, header, &rows, work);
        }
        let whole = self.whole_lead();
        let rows = self.lead_rows(whole, splice)?;
        self.refold_lead(whole, header, &rows, work)
    }
}
