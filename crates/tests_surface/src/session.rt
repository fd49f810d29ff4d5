//! Sessions and edits, by `abc_live`.

ghost use Rattle.std.specs.Prelude.{◌≡◌, ◌≤◌, IfErr, IfOk, Ok, Some, length, option_copied};
ghost use Rattle.std.specs.List.Sorted.{IsStrictlySortedBy};
ghost use Rattle.tests_surface.specs.Session.{book_of, line_at, splice_of, name_of, Refuses, edited, fault_cmp, file_at};
ghost use Rattle.tests_surface.specs.Session.{MOST_LINES, RefusesLine, Reports, book_in, tokens_at, work_at};

use abc_live::{
    Abc, Compiler, Edit, EditError, EditPatch, Fault, FaultCode, LineToken, LineTokenKind,
    LiveSession, MOST_LINES, Report, Sequence, Session, Title, TokensError, Work,
};
use std::alloc::{AllocError, Global};

/// The most lines of a text.
pub const LINES: usize = MOST_LINES;

/// Returns a session of ABC.
pub fn new_session(alloc: Global) -> Result<Session, AllocError> {
    Session::new(alloc)
}

/// Returns the same session, by its compiler.
pub fn session_with(alloc: Global) -> Result<LiveSession<Abc>, AllocError> {
    LiveSession::with(alloc, Abc)
}

/// Edits a tune book of ABC.
pub fn edit_abc(session: &mut Session, edit: &Edit, work: &mut Work) -> Result<Report, EditError> {
    session.apply(edit, work)
}

/// Edits a text.
pub fn edit_text<C: Compiler>(
    session: &mut LiveSession<C>,
    edit: &Edit,
    work: &mut C::Work,
) -> Result<Report, EditError>
    ensures text { IfOk result (λ _. edited session.old.text (splice_of edit.now) ≡ Ok session.new.text) }
    ensures refused { IfErr result (λ e. Refuses e (edited session.old.text (splice_of edit.now))) }
    ensures report { IfOk result (Reports (book_in C.steps C.rules session.old).files (book_in C.steps C.rules session.new).files) }
{
    session.apply(edit, work)
}

/// Prepares an edit of a text, which stays as it is.
pub fn prepare_edit<C: Compiler>(
    session: &mut LiveSession<C>,
    edit: &Edit,
    work: &mut C::Work,
) -> Result<EditPatch<C>, EditError>
    ensures text { IfOk result (λ patch. edited session.old.text (splice_of edit.now) ≡ Ok patch.text) }
    ensures unchanged { session.new ≡ session.old }
{
    session.prepare(edit, work)
}

/// Commits a prepared edit.
pub fn commit_edit<C: Compiler>(session: &mut LiveSession<C>, patch: EditPatch<C>) -> Report
    requires { patch.on ≡ session.old }
    ensures text { session.new.text ≡ patch.text }
{
    session.commit(patch)
}

/// Drops a prepared edit.
pub fn drop_edit<C: Compiler>(patch: EditPatch<C>) {
    patch.drop_patch();
}

/// Returns the file of a number.
pub fn file_of<C: Compiler>(session: &LiveSession<C>, n: u32) -> Option<&[u8]>
    ensures value { option_copied result ≡ file_at (book_in C.steps C.rules session.now).files n }
{
    session.output(n)
}

/// Returns the numbers that have a file.
pub fn numbers_of<C: Compiler>(session: &LiveSession<C>) -> &[u32] {
    session.numbers()
}

/// Returns the titles.
pub fn titles_of<C: Compiler>(session: &LiveSession<C>) -> &[Title]
    ensures value { let compiler = session.now.compiler in
        result.now ≡ (book_of (C.steps compiler) (C.rules compiler) session.now.text).titles }
{
    session.titles()
}

/// Returns the faults.
pub fn faults_of<C: Compiler>(session: &LiveSession<C>) -> &[Fault]
    ensures rise { IsStrictlySortedBy fault_cmp result.now }
{
    session.faults()
}

/// Returns a line, counted from 1.
pub fn line_of<C: Compiler>(session: &LiveSession<C>, n: u32) -> Option<&[u8]>
    ensures value { option_copied result ≡ line_at session.now.text n }
{
    session.line(n)
}

/// Returns the tokens of a line, counted from 1.
pub fn tokens_of<C: Compiler>(
    session: &LiveSession<C>,
    n: u32,
    work: &mut Work,
) -> Result<Vec<LineToken>, TokensError>
    ensures value { IfOk result (λ tokens. tokens_at (C.rules session.now.compiler) session.now.text n ≡ Some tokens.items) }
    ensures refused { IfErr result (RefusesLine (line_at session.now.text n)) }
    ensures counted { work.new ≡ work_at (C.rules session.now.compiler) session.now.text n work.old }
{
    session.tokens(n, work)
}

/// Returns how many lines there are.
pub fn count_lines<C: Compiler>(session: &LiveSession<C>) -> u32
    ensures value { result ≡ length session.now.text }
    ensures limit { result ≤ MOST_LINES }
{
    session.line_count()
}

/// Returns where a fault is, and its code.
pub fn parts_of_fault(fault: Fault) -> (u32, u32, FaultCode) {
    (fault.line, fault.column, fault.code)
}

/// Returns where a token is in its line, its kind, and its depth.
pub fn parts_of_token(token: LineToken) -> (u32, u32, LineTokenKind, u8) {
    (token.from, token.to, token.kind, token.depth)
}

/// Returns the number and the text of a title.
pub fn parts_of_title(title: &Title) -> (u32, &Sequence<u8>) {
    (title.number, &title.text)
}

/// Returns how many files an edit writes and removes.
pub fn counts_of_report(report: &Report) -> (usize, usize) {
    (report.written.len(), report.removed.len())
}

/// Returns where an edit begins.
pub fn first_line_of(edit: &Edit) -> u32 {
    match edit {
        Edit::Insert { at, .. } => *at,
        Edit::Replace { from, .. } | Edit::Delete { from, .. } => *from,
    }
}

/// Returns the name of an error.
pub fn error_name(error: EditError) -> &'static str
    ensures value { result.now ≡ name_of error }
{
    error.name()
}
