//! A text that is kept with the chains of its file header and its tunes. An edit has two steps: the first allocates and
//! changes nothing, the second changes the text and allocates nothing.

ghost use Rattle.std.specs.Prelude.{◌≡◌, ◌≢◌, ◌+◌, ◌≤◌, [], ◌∷◌, IfOk, IfErr, Ok, None, drop, length, map, option_copied};
ghost use Rattle.std.specs.Prelude.{slice_get};
ghost use Rattle.std.specs.List.{AllZip};
ghost use Rattle.abc_live_text.specs.KeptText.{AreRows, IsStretch, IsWorkUpTo, ArePartsOf, all_reused_tunes, fresh_cells_in};
ghost use Rattle.abc_live_text.specs.KeptText.{parts_after, parts_of};
ghost use Rattle.abc_book.specs.Laws.{move_block};
ghost use Rattle.abc_live_text.specs.NewPlaces.{MayReplaceTunes, tune_places_after};
ghost use Rattle.abc_live_text.specs.NewParts.{AreNewParts, chains_after, view_of_new_parts, tunes_after};
ghost use Rattle.abc_live_cost.specs.OldItems.{HasItemsOf, TakesUntouched};
ghost use Rattle.abc_fold.specs.Chain.{no_cells};
ghost use Rattle.abc_lines.specs.Edits.{Refuses, replaced};
ghost use Rattle.abc_live_text.specs.ItemSplice.{splice_in};
ghost use Rattle.abc_lines.specs.Text.{IsText, spliced};

use crate::item_splice::ItemSplice;
use crate::part_patches::PartPatches;
use crate::row::{Row, read_rows};
use crate::stretch::Stretch;
use abc_book::Block;
use abc_fold::{Chain, Counts, Fold, Shared};
use abc_lines::{EditError, GapList, LineBuffer, LinePatch};
use abc_text::Snapshot;
use abc_tune_compiler::Compiler;
use std::alloc::{AllocError, Global};
use std::marker::Model;

/// A text, the classes and the cells of its lines, and the places and chains of its file header and its tunes. The
/// invariant: all of these are the compiler's for the text.
#[derive(Drop)]
pub struct KeptText<C: Compiler> {
    pub(crate) compiler: C,
    pub(crate) lines: LineBuffer,
    pub(crate) rows: GapList<Row<C::Cell>>,
    pub(crate) header: Option<Block>,
    pub(crate) tunes: Vec<Block>,
    pub(crate) chains: GapList<Shared<Chain<C>>>,
}

impl<C: Compiler> Model for KeptText<C> {
    ghost use Rattle.abc_live_text.specs.KeptText.{KeptTextView, ArePartsOf, parts};
    ghost use Rattle.abc_fold.specs.Steps.{};

    ghost Value = { KeptTextView C C.State C.Cell C.Items };

    ghost view = { λ t. record {
      compiler = t.compiler;
      lines = t.lines;
      rows = t.rows;
      header = t.header;
      tunes = t.tunes.items;
      chains = t.chains;
    } };

    ghost invariant = { λ t. ArePartsOf (C.steps t.compiler) (C.rules t.compiler) t.lines.text
        (parts t.rows.items t.header t.tunes.items t.chains.items) };
}

/// A prepared edit of a text. It must be spent, by `commit` of its text or by `drop_patch`. Contracts see the text that
/// it was prepared on, the text after the edit, and the stretch outside which nothing changes.
pub struct TextPatch<C: Compiler> {
    on: Snapshot<KeptText<C>>,
    lines: LinePatch,
    part_patches: PartPatches<C>,
}

impl<C: Compiler> Model for TextPatch<C> {
    ghost use Rattle.abc_live_text.specs.NewPlaces.{MayReplaceTunes, tune_places_after};
    ghost use Rattle.abc_live_text.specs.KeptText.{TextPatchView, Patches, text_patch_view, parts, patched_parts};
    ghost use Rattle.abc_fold.specs.Steps.{};

    ghost Value = { TextPatchView C C.State C.Cell C.Items };

    ghost view = { λ p. let t = p.on.value in let s = p.part_patches in let new = s.new_parts in
        text_patch_view t p.lines.after (parts s.rows.after.items new.header
        (tune_places_after s.tunes new.stretch t.tunes s.places.items) s.chains.after.items)
        new.stretch new.folded.new_chains.items s.places.items new.folded.reused_tunes.items };

    ghost invariant = { λ p. let t = p.on.value in let s = p.part_patches in let new = s.new_parts in Patches C.steps C.rules t
        (patched_parts p.lines s.rows new.header (tune_places_after s.tunes new.stretch t.tunes s.places.items) s.chains)
        × MayReplaceTunes s.tunes new.stretch t.tunes s.places.items };
}

impl<C: Compiler> KeptText<C> {
    /// Returns a text with no lines, for this compiler. The only error is a failed allocation; it drops the compiler.
    pub fn new(alloc: Global, compiler: C) -> Result<KeptText<C>, AllocError>
        ensures compiler { IfOk result (λ text. text.compiler ≡ compiler) }
        ensures empty { IfOk result (λ text. text.lines.text ≡ []) }
        ensures header { IfOk result (λ text. text.header ≡ None) }
        ensures tunes { IfOk result (λ text. text.tunes ≡ []) }
        ensures chains { IfOk result (λ text. text.chains.items ≡ no_cells ∷ []) }
    {
        let lines = LineBuffer::new(alloc)?;
        let rows = GapList::with_room(alloc, 0)?;
        let first = Shared::new(alloc, Chain::new(alloc)?)?;
        let mut chains = GapList::with_room(alloc, 1)?;
        chains.insert(0, first);
        Ok(KeptText {
            compiler,
            lines,
            rows,
            header: None,
            tunes: Vec::new(alloc),
            chains,
        })
    }

    /// Returns the compiler that the text was made with.
    pub fn compiler(&self) -> &C
        ensures { result.now ≡ self.now.compiler }
    {
        &self.compiler
    }

    /// Returns the lines. The kept parts are those of this text.
    pub fn lines(&self) -> &LineBuffer
        ensures lines { result.now ≡ self.now.lines }
        ensures parts { ArePartsOf (C.steps self.now.compiler) (C.rules self.now.compiler) self.now.lines.text
            (parts_of self.now) }
    {
        &self.lines
    }

    /// Returns the place of the file header. None if the text has none.
    pub fn header(&self) -> Option<Block>
        ensures { result ≡ self.now.header }
    {
        self.header
    }

    /// Returns the places of the tunes, in order.
    pub fn tunes(&self) -> &[Block]
        ensures { result.now ≡ self.now.tunes }
    {
        &self.tunes
    }

    /// Returns the chain of a number: 0 is the file header's, which has no states without a file header; tunes are counted
    /// from 1. None after the last.
    pub fn chain(&self, i: usize) -> Option<&Shared<Chain<C>>>
        ensures { option_copied result ≡ slice_get self.now.chains.items i }
    {
        self.chains.get(i)
    }

    /// Returns the row of the line at index `i`. None after the last.
    pub fn row(&self, i: usize) -> Option<&Row<C::Cell>>
        ensures { option_copied result ≡ slice_get self.now.rows.items i }
    {
        self.rows.get(i)
    }

    /// Prepares the parts that an edit folds again, and the changes of the kept parts. Each new line is read once, and
    /// each step folds a fresh cell.
    fn prepare_parts(
        &self,
        splice: &ItemSplice<Vec<u8>>,
        work: &mut C::Work,
    ) -> Result<PartPatches<C>, AllocError>
        requires inside { splice.now.at + splice.now.removed ≤ length self.now.lines.text }
        requires limits { IsText (spliced self.now.lines.text (splice_in splice.now)) }
        ensures new_parts { let c = self.now.compiler in
            IfOk result (λ p. AreNewParts (C.steps c) (C.rules c) self.now (splice_in splice.now) (view_of_new_parts p.new_parts)) }
        ensures rows_on { IfOk result (λ p. p.rows.on ≡ self.now.rows) }
        ensures rows { let c = self.now.compiler in
            IfOk result (λ p. AreRows (C.rules c) (spliced self.now.lines.text (splice_in splice.now)) p.rows.after.items) }
        ensures chains_on { IfOk result (λ p. p.chains.on ≡ self.now.chains) }
        ensures chains { IfOk result (λ p. p.chains.after.items
            ≡ chains_after p.new_parts.first p.new_parts.stretch self.now.chains.items p.new_parts.folded.new_chains.items) }
        ensures tunes { IfOk result
            (λ p. tune_places_after p.tunes p.new_parts.stretch self.now.tunes p.places.items
            ≡ tunes_after p.new_parts.stretch self.now.tunes p.new_parts.folded.tunes.items) }
        ensures fit { IfOk result (λ p. MayReplaceTunes p.tunes p.new_parts.stretch self.now.tunes p.places.items) }
        ensures places { IfOk result (λ p. p.places.items
            ≡ map (move_block p.new_parts.stretch.lines.from) p.new_parts.folded.tunes.items) }
        ensures counted { let c = self.now.compiler in
            IsWorkUpTo (length splice.now.new.now) (fresh_cells_in (C.steps c) (C.rules c) self.now (splice_in splice.now))
            (C.Work.counts work.old) (C.Work.counts work.new) }
    {
        let alloc = self.lines.allocator();
        let rows = read_rows(alloc, &self.compiler, splice.new, work)?;
        let read = ItemSplice {
            at: splice.at,
            removed: splice.removed,
            new: &rows,
        };
        let new_parts = self.refold(&read, work)?;
        self.prepare_patches(splice, rows, new_parts)
    }

    /// Prepares a splice of the lines, whose new lines are copied. Nothing changes. The error is the
    /// first reason of `EditError` why there is no such text, or `OutOfMemory`. Each new line is scanned at most once, and
    /// each step folds a fresh cell, even if an allocation fails.
    pub fn prepare(
        &self,
        splice: &ItemSplice<Vec<u8>>,
        work: &mut C::Work,
    ) -> Result<TextPatch<C>, EditError>
        ensures on { IfOk result (λ patch. patch.on ≡ self.now) }
        ensures text { IfOk result (λ patch. replaced self.now.lines.text (splice_in splice.now) ≡ Ok patch.text) }
        ensures parts { let c = self.now.compiler in
            IfOk result (λ patch. ArePartsOf (C.steps c) (C.rules c) patch.text (parts_after patch)) }
        ensures stretch { IfOk result (λ patch. IsStretch (splice_in splice.now) patch) }
        ensures items { IfOk result (λ patch. AllZip (HasItemsOf
            (drop 1 self.now.chains.items)) patch.new_chains patch.reused_tunes) }
        ensures limits { IfOk result (λ patch. IsText patch.text) }
        ensures untouched { let c = self.now.compiler in
            IfOk result (λ patch. TakesUntouched (C.steps c) (C.rules c) self.now.lines.text (splice_in splice.now)
            (all_reused_tunes patch)) }
        ensures refused { IfErr result (λ e. Refuses e (replaced self.now.lines.text (splice_in splice.now))) }
        ensures uncounted { IfErr result (λ e. e ≢ EditError.OutOfMemory → work.new ≡ work.old) }
        ensures counted { let c = self.now.compiler in
            IsWorkUpTo (length splice.now.new.now) (fresh_cells_in (C.steps c) (C.rules c) self.now (splice_in splice.now))
            (C.Work.counts work.old) (C.Work.counts work.new) }
    {
        let patch = self
            .lines
            .splice_prepare(splice.at, splice.removed, splice.new)?;
        match self.prepare_parts(splice, work) {
            Ok(part_patches) => Ok(TextPatch {
                on: Snapshot::of(self),
                lines: patch,
                part_patches,
            }),
            Err(_) => {
                patch.drop_patch();
                Err(EditError::OutOfMemory)
            }
        }
    }

    /// Commits a prepared edit without allocating. The patch belongs to the text as it is now.
    pub fn commit(&mut self, patch: TextPatch<C>)
        requires { patch.on ≡ self.old }
        ensures compiler { self.new.compiler ≡ self.old.compiler }
        ensures text { self.new.lines.text ≡ patch.text }
        ensures rows { self.new.rows.items ≡ patch.rows }
        ensures header { self.new.header ≡ patch.header }
        ensures tunes { self.new.tunes ≡ patch.tunes }
        ensures chains { self.new.chains.items ≡ patch.chains }
    {
        let TextPatch {
            on: _,
            lines,
            part_patches,
        } = patch;
        let PartPatches {
            rows,
            chains,
            tunes,
            places,
            new_parts,
        } = part_patches;
        tunes.commit(&mut self.tunes, new_parts.stretch, &places);
        self.lines.commit(lines);
        self.rows.commit(rows);
        self.header = new_parts.header;
        self.chains.commit(chains);
    }
}

impl<C: Compiler> TextPatch<C> {
    /// Returns the stretch outside which nothing changes.
    pub fn stretch(&self) -> Stretch
        ensures { result ≡ self.now.stretch }
    {
        self.part_patches.new_parts.stretch
    }

    /// Returns the place of the file header after the edit. None if the text then has none.
    pub fn header(&self) -> Option<Block>
        ensures { result ≡ self.now.header }
    {
        self.part_patches.new_parts.header
    }

    /// Returns the chains of the stretch's tunes after the edit.
    pub fn new_chains(&self) -> &[Shared<Chain<C>>]
        ensures { result.now ≡ self.now.new_chains }
    {
        &self.part_patches.new_parts.folded.new_chains
    }

    /// Returns the places of these tunes.
    pub fn places(&self) -> &[Block]
        ensures { result.now ≡ self.now.places }
    {
        &self.part_patches.places
    }

    /// Returns for each of them the old tune that has exactly its items, counted from 0. None if no such tune is known.
    pub fn reused_tunes(&self) -> &[Option<usize>]
        ensures { result.now ≡ self.now.reused_tunes }
    {
        &self.part_patches.new_parts.folded.reused_tunes
    }

    /// Returns the chain of a number after the edit: 0 is the file header's, which has no states without a file header; tunes
    /// are counted from 1. None after the last. The patch belongs to the text as it is now.
    pub fn chain<'a>(&'a self, text: &'a KeptText<C>, i: usize) -> Option<&'a Shared<Chain<C>>>
        requires { self.now.on ≡ text.now }
        ensures { option_copied result ≡ slice_get self.now.chains i }
    {
        self.part_patches.chains.get(&text.chains, i)
    }

    /// Returns the row of the line at index `i` after the edit. None after the last. The patch belongs to the text as it is
    /// now.
    pub fn row<'a>(&'a self, text: &'a KeptText<C>, i: usize) -> Option<&'a Row<C::Cell>>
        requires { self.now.on ≡ text.now }
        ensures { option_copied result ≡ slice_get self.now.rows i }
    {
        self.part_patches.rows.get(&text.rows, i)
    }

    /// Drops the patch: nothing changes.
    pub fn drop_patch(self) {
        let TextPatch {
            on: _,
            lines,
            part_patches,
        } = self;
        lines.drop_patch();
        part_patches.drop_patches();
    }
}
