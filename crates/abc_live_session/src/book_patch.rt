//! The book after a prepared edit: the outputs of the tunes of the stretch, and their faults.

ghost use Rattle.std.specs.Prelude.{◌≡◌, ◌+◌, ◌≤◌, IfOk, Some, drop, length, map, slice_get};
ghost use Rattle.abc_live_index.specs.Outputs.{files_of};
ghost use Rattle.abc_lines.specs.declared.limits.TheConstants.{MOST_LINES};
ghost use Rattle.abc_live_session.specs.Prepared.{HeaderCells, IsBook, IsPrepared, TuneCells, stretch_faults};
ghost use Rattle.abc_live_text.specs.ItemSplice.{splice_in};
ghost use Rattle.abc_tune_memo.specs.Memo.{Remembers};
ghost use Rattle.abc_live_index.specs.BuildCount.{IsBuiltUpTo, built_count};
ghost use Rattle.abc_live_index.specs.Output.{output_in};
ghost use Rattle.abc_tune_compiler.specs.Book.{book_of};
ghost use Rattle.abc_tune_compiler.specs.Report.{Reports};

use crate::stretch_lines::{counts_of, lines_of};
use abc_book::Block;
use abc_fold::{Chain, Shared};
use abc_live_index::{
    BookPatch, KeptBook, NewTunes, Output, ReusedOutputs, StretchView, outputs_of, put_cell_faults,
    put_tune_faults,
};
use abc_live_text::{ItemSplice, KeptText, TextPatch, header_state};
use abc_tune_compiler::{Compiler, Fault};
use abc_tune_memo::TuneMemo;
use std::alloc::{AllocError, Global};

/// Returns the chain of the file header after the edit. The edit belongs to the text as it is now.
fn first_chain<'a, C: Compiler>(text: &'a KeptText<C>, text_patch: &'a TextPatch<C>) -> &'a Chain<C>
    requires on { text_patch.now.on ≡ text.now }
    requires some { 1 ≤ length text_patch.now.chains }
    ensures { slice_get text_patch.now.chains 0 ≡ Some result.now }
{
    text_patch.chain(text, 0).unwrap().get()
}

/// Returns the faults of a stretch: those of the file header, if it lies there, and those of the tunes, by their
/// outputs.
fn faults_of<C: Compiler>(
    compiler: &C,
    alloc: Global,
    header: Option<Block>,
    first: &Chain<C>,
    stretch: &StretchView<C>,
    outputs: &[Shared<Output>],
) -> Result<Vec<Fault>, AllocError>
    requires few { stretch.now.before + length stretch.now.counts.now ≤ MOST_LINES }
    requires header { HeaderCells stretch.now.before stretch.now.counts.now first.now header }
    requires cells { TuneCells stretch.now.before stretch.now.counts.now stretch.now.chains.now stretch.now.places.now }
    requires outputs { outputs.now ≡ map (output_in (C.rules compiler.now)) stretch.now.chains.now }
    ensures { let s = stretch.now in
        IfOk result (λ faults. faults.items ≡ stretch_faults
        (C.rules compiler.now) s.before s.counts.now first.now header s.chains.now s.places.now) }
{
    let mut faults = Vec::new(alloc);
    if let Some(block) = header {
        if stretch.before < block.to {
            put_cell_faults(compiler, &mut faults, stretch, first, block)?;
        }
    }
    put_tune_faults(compiler, &mut faults, stretch, outputs)?;
    Ok(faults)
}

/// Prepares the book after a prepared edit. The memo is asked only for the tunes of the stretch that reuse no output,
/// and at most these are built. The only error is a failed allocation.
pub(crate) fn book_after<C: Compiler>(
    text: &KeptText<C>,
    book: &KeptBook,
    text_patch: &TextPatch<C>,
    splice: &ItemSplice<Vec<u8>>,
    memo: &mut TuneMemo<C>,
    work: &mut C::Work,
) -> Result<BookPatch, AllocError>
    requires on { text_patch.now.on ≡ text.now }
    requires prepared { let c = text.now.compiler in
        IsPrepared (C.steps c) (C.rules c) (splice_in splice.now) text_patch.now }
    requires outputs { book.now.outputs.items ≡ map (output_in (C.rules text.now.compiler)) (drop 1 text.now.chains.items) }
    requires faults { let c = text.now.compiler in
        book.now.faults ≡ (book_of (C.steps c) (C.rules c) text.now.lines.text).faults }
    requires remembers { let c = text.now.compiler in
        Remembers (C.steps c) (C.rules c) memo.old }
    ensures on { IfOk result (λ patch. patch.on ≡ book.now) }
    ensures outputs { IfOk result (λ patch. patch.outputs
        ≡ map (output_in (C.rules text.now.compiler)) (drop 1 text_patch.now.chains)) }
    ensures book { let c = text.now.compiler in
        IfOk result (λ patch. IsBook patch.outputs patch.faults (book_of (C.steps c) (C.rules c) text_patch.now.text)) }
    ensures report { IfOk result (λ patch. Reports (files_of book.now.outputs.items) (files_of patch.outputs) patch.report) }
    ensures remembers { let c = text.now.compiler in
        Remembers (C.steps c) (C.rules c) memo.new }
    ensures counted { IsBuiltUpTo (built_count text_patch.now.reused_tunes) (C.Work.counts work.old) (C.Work.counts work.new) }
{
    // For the prover: the text has at most `MOST_LINES` lines.
    let _ = text.lines().len();
    let alloc = text.lines().allocator();
    let compiler = text.compiler();
    let stretch = text_patch.stretch();
    let first = first_chain(text, text_patch);
    let lines = lines_of(text.lines(), splice, stretch)?;
    let counts = counts_of(alloc, text, text_patch)?;
    let folded = StretchView {
        lines: &lines,
        before: stretch.lines.from,
        header_state: header_state(text_patch.header(), first),
        places: text_patch.places(),
        chains: text_patch.new_chains(),
        counts: &counts,
    };
    let old = ReusedOutputs {
        reused_tunes: text_patch.reused_tunes(),
        outputs: book.outputs(),
    };
    let outputs = outputs_of(compiler, alloc, &folded, &old, memo, work)?;
    let faults = faults_of(
        compiler,
        alloc,
        text_patch.header(),
        first,
        &folded,
        &outputs,
    )?;
    let tunes = NewTunes {
        range: stretch.tunes,
        outputs,
        lines: stretch.lines,
        faults,
    };
    book.prepare(alloc, tunes)
}
