//! A tune book that is edited, for any compiler of its tunes.

ghost use Rattle.std.specs.Prelude.{◌≡◌, ◌≢◌, ◌↔◌, ℕ, ◌+◌, ◌-◌, ◌≤◌, [], All, Contains, IfErr, IfOk, IfSome, IsSome, MatchResult, None, Ok, Some};
ghost use Rattle.std.specs.Prelude.{length, option_copied};
ghost use Rattle.std.specs.List.Sorted.{IsStrictlyIncreasing, IsStrictlySortedBy};
ghost use Rattle.std.specs.Map.{keys_of};
ghost use Rattle.abc_lines.specs.Edits.{Refuses, edited, replaced};
ghost use Rattle.abc_lines.specs.declared.limits.TheConstants.{MOST_LINES};
ghost use Rattle.abc_live_session.specs.Counting.{MayCost, cost_of};
ghost use Rattle.abc_live_session.specs.Edit.{line_at, splice_of};
ghost use Rattle.abc_live_text.specs.ItemSplice.{splice_in};
ghost use Rattle.abc_live_session.specs.Owner.{owner_of, tune_file};
ghost use Rattle.abc_live_session.specs.Session.{book_in, session_tunes};
ghost use Rattle.abc_live_session.specs.Tokens.{RefusesLine, is_compiled, tokens_at, work_at};
ghost use Rattle.abc_text.specs.LineEnd.{without_return};
ghost use Rattle.abc_tokens.specs.Columns.{JoinColumns, PartsFill, PartsLieWithin, outer_tokens};
ghost use Rattle.abc_tokens.specs.Kinds.{HasKind};
ghost use Rattle.abc_tune_compiler.specs.Book.{book_of};
ghost use Rattle.abc_tune_compiler.specs.Fault.{fault_cmp};
ghost use Rattle.abc_tune_compiler.specs.Files.{file_at, first_file};
ghost use Rattle.abc_tune_compiler.specs.Report.{Reports};

use crate::book_patch::book_after;
use crate::compiled_lines::is_compiled;
use crate::edit::Edit;
use crate::edit_splice::splice_of;
use crate::tokens_error::TokensError;
use abc_lines::EditError;
use abc_live_index::{BookPatch, KeptBook};
use abc_live_text::{ItemSplice, KeptText, TextPatch};
use abc_tokens::{LineToken, Work, line_tokens};
use abc_tune_compiler::{Compiler, Fault, Report, Title};
use abc_tune_memo::TuneMemo;
use std::alloc::{AllocError, Global};
use std::marker::Model;

/// A tune book's text with the file of each reference number, the titles and the faults, as a compiler gives them.
/// Contracts see the compiler, the text and the kept parts. The memo of built tunes affects only the counters.
#[derive(Drop)]
pub struct LiveSession<C: Compiler> {
    text: KeptText<C>,
    book: KeptBook,
    memo: TuneMemo<C>,
}

impl<C: Compiler> Model for LiveSession<C> {
    ghost use Rattle.abc_fold.specs.Steps.{};
    ghost use Rattle.abc_live_session.specs.Prepared.{HasOutputs, IsBookOf};
    ghost use Rattle.abc_live_session.specs.Session.{SessionView, session_view};
    ghost use Rattle.abc_tune_memo.specs.Memo.{Remembers};

    ghost Value = { SessionView C C.State C.Cell C.Items };

    ghost view = { λ s. session_view s.text s.book };

    ghost invariant = { λ s. let c = s.text.compiler in HasOutputs (C.rules c) s.text s.book
        × IsBookOf (C.steps c) (C.rules c) s.text s.book × Remembers (C.steps c) (C.rules c) s.memo };
}

/// A prepared edit: the session after it, and how its files will differ. It must be spent, by `commit` of the session
/// as it is or by `drop_patch`.
pub struct EditPatch<C: Compiler> {
    text: TextPatch<C>,
    book: BookPatch,
}

impl<C: Compiler> Model for EditPatch<C> {
    ghost use Rattle.std.specs.Prelude.{◌≡◌, drop, map};
    ghost use Rattle.abc_live_session.specs.Prepared.{IsBook};
    ghost use Rattle.abc_live_session.specs.Session.{EditPatchView, session_view};
    ghost use Rattle.abc_live_index.specs.Output.{output_in};
    ghost use Rattle.abc_tune_compiler.specs.Book.{book_of};

    ghost Value = { EditPatchView C C.State C.Cell C.Items };

    ghost view = { λ p. record { on = session_view p.text.on p.book.on; text = p.text.text; report = p.book.report } };

    ghost invariant = { λ p. let c = p.text.on.compiler in (p.book.outputs ≡ map (output_in (C.rules c)) (drop 1 p.text.chains))
        × IsBook p.book.outputs p.book.faults (book_of (C.steps c) (C.rules c) p.text.text) };
}

impl<C: Compiler + Default> LiveSession<C> {
    /// Returns a session with no lines, whose tunes the default compiler of this type compiles. The only error is a failed
    /// allocation.
    pub fn new(alloc: Global) -> Result<LiveSession<C>, AllocError>
        ensures compiler { IfOk result (λ s. C.is_default s.compiler) }
        ensures text { IfOk result (λ s. s.text ≡ []) }
    {
        LiveSession::with(alloc, C::default())
    }
}

impl<C: Compiler> LiveSession<C> {
    /// Returns a session with no lines, whose tunes this compiler compiles. The only error is a failed allocation; it drops
    /// the compiler.
    pub fn with(alloc: Global, compiler: C) -> Result<LiveSession<C>, AllocError>
        ensures compiler { IfOk result (λ s. s.compiler ≡ compiler) }
        ensures text { IfOk result (λ s. s.text ≡ []) }
    {
        let memo = TuneMemo::new(alloc)?;
        let text = KeptText::new(alloc, compiler)?;
        let book = KeptBook::new(alloc)?;
        Ok(LiveSession { text, book, memo })
    }

    /// Prepares an edit. Only the counters and the memo change. The error is the first reason of `EditError` why the edit
    /// gives no text, or `OutOfMemory` if it gives one. The counters rise at most by the new lines, the fresh cells and the
    /// touched tunes. If the edit is refused for another reason than memory, they do not rise.
    pub fn prepare(&mut self, edit: &Edit, work: &mut C::Work) -> Result<EditPatch<C>, EditError>
        ensures unchanged { self.new ≡ self.old }
        ensures on { IfOk result (λ patch. patch.on ≡ self.old) }
        ensures text { IfOk result (λ patch. edited self.old.text (splice_of edit.now) ≡ Ok patch.text) }
        ensures report { let c = self.old.compiler in
            IfOk result (λ patch. Reports (book_in C.steps C.rules self.old).files
            (book_of (C.steps c) (C.rules c) patch.text).files patch.report) }
        ensures refused { IfErr result (λ e. Refuses e (edited self.old.text (splice_of edit.now))) }
        ensures uncounted { IfErr result (λ e. e ≢ EditError.OutOfMemory → work.new ≡ work.old) }
        ensures counted { MayCost (cost_of (C.steps self.old.compiler) (C.rules self.old.compiler) self.old.text
            (splice_of edit.now)) (C.Work.counts work.old) (C.Work.counts work.new) }
    {
        match splice_of(edit) {
            Some(splice) => self.prepare_splice(&splice, work),
            None => Err(EditError::BadRange),
        }
    }

    /// Prepares a splice of the lines.
    fn prepare_splice(
        &mut self,
        splice: &ItemSplice<Vec<u8>>,
        work: &mut C::Work,
    ) -> Result<EditPatch<C>, EditError>
        ensures unchanged { self.new ≡ self.old }
        ensures on { IfOk result (λ patch. patch.on ≡ self.old) }
        ensures text { IfOk result (λ patch. replaced self.old.text (splice_in splice.now) ≡ Ok patch.text) }
        ensures report { let c = self.old.compiler in
            IfOk result (λ patch. Reports (book_in C.steps C.rules self.old).files
            (book_of (C.steps c) (C.rules c) patch.text).files patch.report) }
        ensures refused { IfErr result (λ e. Refuses e (replaced self.old.text (splice_in splice.now))) }
        ensures uncounted { IfErr result (λ e. e ≢ EditError.OutOfMemory → work.new ≡ work.old) }
        ensures counted { MayCost (cost_of (C.steps self.old.compiler) (C.rules self.old.compiler) self.old.text
            (Some (splice_in splice.now))) (C.Work.counts work.old) (C.Work.counts work.new) }
    {
        // For the prover: the kept parts are those of the text.
        let _ = self.text.lines();
        let text = self.text.prepare(splice, work)?;
        let memo = &mut self.memo;
        match book_after(&self.text, &self.book, &text, splice, memo, work) {
            Ok(book) => Ok(EditPatch { text, book }),
            Err(refused) => {
                text.drop_patch();
                Err(EditError::from(refused))
            }
        }
    }

    /// Commits a prepared edit without allocating, and returns which files changed. The patch belongs to the session as
    /// it is now.
    pub fn commit(&mut self, patch: EditPatch<C>) -> Report
        requires { patch.on ≡ self.old }
        ensures text { self.new.text ≡ patch.text }
        ensures compiler { self.new.compiler ≡ self.old.compiler }
        ensures report { result ≡ patch.report }
    {
        let EditPatch { text, book } = patch;
        self.text.commit(text);
        self.book.commit(book)
    }

    /// Edits the text, and returns which files changed. The error is that of `prepare`, and the session is then unchanged.
    /// The counters rise by the new lines, the fresh cells and the touched tunes at most, and not at all if the edit is
    /// refused for another reason than memory.
    pub fn apply(&mut self, edit: &Edit, work: &mut C::Work) -> Result<Report, EditError>
        ensures text { MatchResult result (λ _. edited self.old.text (splice_of edit.now) ≡ Ok self.new.text)
            (λ _. self.new ≡ self.old) }
        ensures compiler { self.new.compiler ≡ self.old.compiler }
        ensures refused { IfErr result (λ e. Refuses e (edited self.old.text (splice_of edit.now))) }
        ensures uncounted { IfErr result (λ e. e ≢ EditError.OutOfMemory → work.new ≡ work.old) }
        ensures report { IfOk result (Reports (book_in C.steps C.rules self.old).files (book_in C.steps C.rules self.new).files) }
        ensures counted { MayCost (cost_of (C.steps self.old.compiler) (C.rules self.old.compiler) self.old.text
            (splice_of edit.now)) (C.Work.counts work.old) (C.Work.counts work.new) }
    {
        let patch = self.prepare(edit, work)?;
        Ok(self.commit(patch))
    }

    /// Returns the bytes of a number's file: those of the first tune of the number that has one. None if no tune has.
    #[tactic(auto, using(crate::proofs::Books::file_of_first))]
    pub fn output(&self, n: u32) -> Option<&[u8]>
        ensures file { option_copied result ≡ file_at (book_in C.steps C.rules self.now).files n }
        ensures first { option_copied result ≡ first_file (session_tunes C.steps C.rules self.now) n }
    {
        self.book.file(n)
    }

    /// Returns the index, among the tunes of the text, of the one that gives a number's file. None if no tune has one.
    pub fn owner(&self, n: u32) -> Option<usize>
        ensures value { result ≡ owner_of (session_tunes C.steps C.rules self.now) n }
        ensures file { file_at (book_in C.steps C.rules self.now).files n ≡ tune_file (session_tunes C.steps C.rules self.now) result }
    {
        // For the prover: the kept parts are those of the text.
        let _ = self.text.lines();
        self.book.owner(n)
    }

    /// Returns the text with what is kept of it: the cells of its lines, and the places and chains of its file header and of
    /// its tunes.
    pub fn kept_text(&self) -> &KeptText<C>
        ensures value { result.now ≡ self.now.kept }
        ensures text { result.now.lines.text ≡ self.now.text }
        ensures compiler { result.now.compiler ≡ self.now.compiler }
    {
        &self.text
    }

    /// Returns the reference numbers that have a file, rising.
    #[tactic(auto, using(crate::proofs::Books::numbers_have_files))]
    pub fn numbers(&self) -> &[u32]
        ensures value { result.now ≡ keys_of (book_in C.steps C.rules self.now).files }
        ensures exact { (n : ℕ) → Contains result.now n ↔ IsSome (file_at (book_in C.steps C.rules self.now).files n) }
        ensures rise { IsStrictlyIncreasing result.now }
    {
        self.book.numbers()
    }

    /// Returns the numbers and titles, tune by tune.
    pub fn titles(&self) -> &[Title]
        ensures { result.now ≡ (book_in C.steps C.rules self.now).titles }
    {
        self.book.titles()
    }

    /// Returns the faults of the text, in order, each once.
    #[tactic(auto, using(crate::proofs::Books::faults_in_order))]
    pub fn faults(&self) -> &[Fault]
        ensures value { result.now ≡ (book_in C.steps C.rules self.now).faults }
        ensures rise { IsStrictlySortedBy fault_cmp result.now }
    {
        self.book.faults()
    }

    /// Returns the bytes of the line of a number, counted from 1. None for 0 and after the last line.
    pub fn line(&self, n: u32) -> Option<&[u8]>
        ensures { option_copied result ≡ line_at self.now.text n }
    {
        if n == 0 {
            return None;
        }
        self.text.lines().line(n as usize - 1)
    }

    /// Returns the tokens of the line of a number, counted from 1, in order; after a chord come its parts. They are worked
    /// out when they are asked for, from the line and the places of the file header and the tunes. The error is `NoSuchLine`
    /// for 0 and after the last line, or `OutOfMemory`. Counts one line scanned if the line is cut into tokens.
    pub fn tokens(&self, number: u32, work: &mut Work) -> Result<Vec<LineToken>, TokensError>
        ensures value { IfOk result (λ tokens. tokens_at (C.rules self.now.compiler) self.now.text number ≡ Some tokens.items) }
        ensures refused { IfErr result (RefusesLine (line_at self.now.text number)) }
        ensures covers { IfOk result (λ tokens. IfSome (line_at self.now.text number)
            (λ line. JoinColumns 1 (outer_tokens tokens.items) (length (without_return line) + 1))) }
        ensures inside { IfOk result (λ tokens. PartsLieWithin 0 0 tokens.items) }
        ensures parts { IfOk result (λ tokens. IfSome (line_at self.now.text number) (λ line. PartsFill line None tokens.items)) }
        ensures kinds { IfOk result (λ tokens. IfSome (line_at self.now.text number)
            (λ line. All (HasKind (is_compiled (C.rules self.now.compiler) self.now.text (number - 1)) line) tokens.items)) }
        ensures counted { work.new ≡ work_at (C.rules self.now.compiler) self.now.text number work.old }
    {
        match self.line(number) {
            Some(line) => {
                let compiled = is_compiled(&self.text, number);
                let alloc = self.text.lines().allocator();
                Ok(line_tokens(alloc, compiled, line, work)?)
            }
            None => Err(TokensError::NoSuchLine),
        }
    }

    /// Returns how many lines there are.
    pub fn line_count(&self) -> u32
        ensures value { result ≡ length self.now.text }
        ensures limit { result ≤ MOST_LINES }
    {
        self.text.lines().len() as u32
    }
}

impl<C: Compiler> EditPatch<C> {
    /// Drops the edit: the session stays as it is.
    pub fn drop_patch(self) {
        let EditPatch { text, book } = self;
        text.drop_patch();
        book.drop_patch();
    }
}
