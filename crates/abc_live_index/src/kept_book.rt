//! The files, titles and faults of a text, and a change of them that has been prepared.

ghost use Rattle.std.specs.Prelude.{◌≡◌, ◌+◌, ◌-◌, ◌<◌, ◌≤◌, ◌++◌, [], All, IfOk, IsOk, drop, length, option_copied, take};
ghost use Rattle.std.specs.Prelude.{unwrap_or};
ghost use Rattle.std.specs.List.Sorted.{IsStrictlyIncreasing};
ghost use Rattle.std.specs.Map.{keys_of};
ghost use Rattle.abc_lines.specs.ItemRange.{removed_count};
ghost use Rattle.abc_live_index.specs.TuneChange.{IsChange, new_outputs, old_outputs};
ghost use Rattle.abc_live_index.specs.Faults.{faults_after};
ghost use Rattle.abc_live_index.specs.Outputs.{files_of, titles_of};
ghost use Rattle.abc_live_index.specs.Owners.{owner_among, owners_of};
ghost use Rattle.abc_live_index.specs.Titles.{TitlesFit, titles_after};
ghost use Rattle.abc_tune_compiler.specs.Files.{file_at};
ghost use Rattle.abc_tune_compiler.specs.Report.{Reports};

use crate::Output;
use crate::faults::faults_after;
use crate::new_tunes::NewTunes;
use crate::owners::Owners;
use crate::report::{report_over, report_within};
use crate::titles::NewTitles;
use crate::tune_change::{TuneChange, file_of};
use abc_fold::Shared;
use abc_lines::{GapList, Replacement, SplicePatch};
use abc_text::Snapshot;
use abc_tune_compiler::{Fault, Report, Title};
use std::alloc::{AllocError, Global};
use std::marker::Model;

/// The files, titles and faults of a text. Contracts see the output of each tune and the faults: the files and the
/// titles are those of the outputs.
#[derive(Drop)]
pub struct KeptBook {
    outputs: GapList<Shared<Output>>,
    owners: Owners,
    titles: Vec<Title>,
    faults: Vec<Fault>,
}

impl Model for KeptBook {
    ghost use Rattle.std.specs.Prelude.{◌≡◌};
    ghost use Rattle.abc_live_index.specs.KeptBook.{KeptBookView, kept_book_view};
    ghost use Rattle.abc_live_index.specs.Outputs.{titles_of};
    ghost use Rattle.abc_live_index.specs.Owners.{owners_of};

    ghost Value = { KeptBookView };

    ghost view = { λ b. kept_book_view b.outputs b.faults.items };

    ghost invariant = { λ b. (b.owners ≡ owners_of b.outputs.items) × (b.titles.items ≡ titles_of b.outputs.items) };
}

/// A prepared change of a book: its new tunes and faults, and how its files differ. It must be spent, by `commit` of
/// the book as it is or by `drop_patch`.
pub struct BookPatch {
    on: Snapshot<KeptBook>,
    outputs: SplicePatch<Shared<Output>>,
    differences: Differences,
    faults: Vec<Fault>,
}

impl Model for BookPatch {
    ghost use Rattle.std.specs.Prelude.{◌≡◌};
    ghost use Rattle.abc_live_index.specs.Differences.{AreDifferences};
    ghost use Rattle.abc_live_index.specs.KeptBook.{BookPatchView, book_patch_view};

    ghost Value = { BookPatchView };

    ghost view = { λ p. book_patch_view p.on.value p.outputs.after.items p.faults.items p.differences.report };

    ghost invariant = { λ p. (p.outputs.on ≡ p.on.value.outputs)
        × AreDifferences p.on.value.outputs.items p.outputs.after.items p.differences.owners p.differences.titles };
}

/// The differences that a change makes to a book besides its outputs and faults: new owners, if they change, new titles, and
/// how the files differ.
#[derive(Drop)]
struct Differences {
    owners: Option<Owners>,
    titles: NewTitles,
    report: Report,
}

impl KeptBook {
    /// Returns the book of no tunes. It allocates nothing yet, so it never fails.
    pub fn new(alloc: Global) -> Result<KeptBook, AllocError>
        ensures succeeds { IsOk result }
        ensures outputs { IfOk result (λ book. book.outputs.items ≡ []) }
        ensures faults { IfOk result (λ book. book.faults ≡ []) }
    {
        Ok(KeptBook {
            outputs: GapList::with_room(alloc, 0)?,
            owners: Owners::new(alloc),
            titles: Vec::new(alloc),
            faults: Vec::new(alloc),
        })
    }

    /// Returns the output of each tune, in the order of the text.
    pub fn outputs(&self) -> &GapList<Shared<Output>>
        ensures { result.now ≡ self.now.outputs }
    {
        &self.outputs
    }

    /// Returns the file of a number: that of the first tune of the number that has one. None if no tune has.
    pub fn file(&self, number: u32) -> Option<&[u8]>
        ensures { option_copied result ≡ file_at (files_of self.now.outputs.items) number }
    {
        file_of(&self.outputs, self.owners.get(number))
    }

    /// Returns the index of the tune that gives the file of a number: the first of its tunes that has one. None if no tune has.
    pub fn owner(&self, number: u32) -> Option<usize>
        ensures { result ≡ owner_among self.now.outputs.items number }
    {
        self.owners.get(number)
    }

    /// Returns the numbers that have a file, rising.
    pub fn numbers(&self) -> &[u32]
        ensures value { result.now ≡ keys_of (files_of self.now.outputs.items) }
        ensures rise { IsStrictlyIncreasing result.now }
    {
        self.owners.numbers()
    }

    /// Returns the number and the title of each tune, in the order of the text.
    pub fn titles(&self) -> &[Title]
        ensures { result.now ≡ titles_of self.now.outputs.items }
    {
        &self.titles
    }

    /// Returns the faults in order, each once.
    pub fn faults(&self) -> &[Fault]
        ensures { result.now ≡ self.now.faults }
    {
        &self.faults
    }

    /// Prepares to replace old tunes and faults by new ones. Nothing changes. The only error is a failed allocation.
    pub fn prepare(&self, alloc: Global, tunes: NewTunes) -> Result<BookPatch, AllocError>
        requires order { tunes.range.from ≤ tunes.range.to }
        requires inside { tunes.range.to ≤ length self.now.outputs.items }
        requires few { All (λ fault. tunes.lines.from + removed_count tunes.lines < fault.line
            → fault.line - removed_count tunes.lines + tunes.lines.came ≤ u32.MAX) self.now.faults }
        ensures on { IfOk result (λ patch. patch.on ≡ self.now) }
        ensures outputs { IfOk result (λ patch. patch.outputs ≡ take tunes.range.from self.now.outputs.items
            ++ (tunes.outputs.items ++ drop tunes.range.to self.now.outputs.items)) }
        ensures faults { IfOk result (λ patch. patch.faults ≡ faults_after tunes.lines self.now.faults tunes.faults.items) }
        ensures report { IfOk result (λ patch. Reports (files_of self.now.outputs.items) (files_of patch.outputs) patch.report) }
    {
        let NewTunes {
            range,
            outputs,
            lines,
            faults,
        } = tunes;
        let faults = faults_after(alloc, lines, &self.faults, &faults)?;
        let count = outputs.len();
        let outputs = self
            .outputs
            .splice_prepare(alloc, range.from, range.to - range.from, outputs)?;
        let change = TuneChange {
            before: &self.outputs,
            splice: &outputs,
            tunes: Replacement {
                from: range.from,
                to: range.to,
                came: count,
            },
        };
        match self.differences(alloc, &change) {
            Ok(differences) => Ok(BookPatch {
                on: Snapshot::of(self),
                outputs,
                differences,
                faults,
            }),
            Err(error) => {
                outputs.drop_patch();
                Err(error)
            }
        }
    }

    /// Returns the differences that a change of the tunes makes. If each new tune has the claim of the old one, the owners stay.
    fn differences(&self, alloc: Global, change: &TuneChange) -> Result<Differences, AllocError>
        requires change { IsChange change.now }
        requires before { change.now.before.now ≡ self.now.outputs }
        ensures owners { IfOk result (λ d. unwrap_or d.owners (owners_of (old_outputs change.now))
            ≡ owners_of (new_outputs change.now)) }
        ensures fit { IfOk result (λ d. TitlesFit (titles_of (old_outputs change.now)) d.titles) }
        ensures titles { IfOk result (λ d. titles_after (titles_of (old_outputs change.now)) d.titles
            ≡ titles_of (new_outputs change.now)) }
        ensures report { IfOk result (λ d. Reports (files_of (old_outputs change.now))
            (files_of (new_outputs change.now)) d.report) }
    {
        let titles = NewTitles::of(alloc, change)?;
        if change.keeps_claims() {
            let report = report_within(alloc, change, &self.owners)?;
            return Ok(Differences {
                owners: None,
                titles,
                report,
            });
        }
        let owners = Owners::after(alloc, change)?;
        let report = report_over(alloc, change, &self.owners, &owners)?;
        Ok(Differences {
            owners: Some(owners),
            titles,
            report,
        })
    }

    /// Commits a prepared change without allocating, and returns how the files differ. The patch belongs to the book as
    /// it is now.
    pub fn commit(&mut self, patch: BookPatch) -> Report
        requires { patch.on ≡ self.old }
        ensures outputs { self.new.outputs.items ≡ patch.outputs }
        ensures faults { self.new.faults ≡ patch.faults }
        ensures report { result ≡ patch.report }
    {
        let BookPatch {
            on: _,
            outputs,
            differences,
            faults,
        } = patch;
        let Differences {
            owners,
            titles,
            report,
        } = differences;
        self.outputs.commit(outputs);
        self.owners.replace_by(owners);
        titles.commit(&mut self.titles);
        self.faults = faults;
        report
    }
}

impl BookPatch {
    /// Drops the patch: nothing changes.
    pub fn drop_patch(self) {
        let BookPatch {
            on: _,
            outputs,
            differences: _,
            faults: _,
        } = self;
        outputs.drop_patch();
    }
}
