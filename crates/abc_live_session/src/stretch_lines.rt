//! The lines of the stretch of an edit, and how many cells they have.

ghost use Rattle.std.specs.Prelude.{◌≡◌, ◌+◌, ◌<◌, ◌≤◌, IfOk, drop, length, map, option_copied, slice_get, take};
ghost use Rattle.abc_lines.specs.Text.{seen_lines, spliced};
ghost use Rattle.abc_lines.specs.declared.limits.TheConstants.{MOST_LINES};
ghost use Rattle.abc_live_session.specs.Prepared.{count_in};
ghost use Rattle.abc_live_text.specs.ItemSplice.{splice_in};

use abc_lines::LineBuffer;
use abc_live_text::{ItemSplice, KeptText, Stretch, TextPatch};
use abc_tune_compiler::Compiler;
use std::alloc::{AllocError, Global};

/// Returns the line at index `i` of the text after a splice.
fn line_after<'a>(
    text: &'a LineBuffer,
    splice: &ItemSplice<'a, Vec<u8>>,
    i: usize,
) -> Option<&'a [u8]>
    requires range { splice.now.at + splice.now.removed ≤ length text.now.text }
    requires inside { i < length (spliced text.now.text (splice_in splice.now)) }
    ensures { option_copied result ≡ slice_get (spliced text.now.text (splice_in splice.now)) i }
{
    // For the prover: the text has at most `MOST_LINES` lines.
    let _ = text.len();
    let came = splice.new.len();
    if i < splice.at {
        text.line(i)
    } else if i - splice.at < came {
        Some(splice.new[i - splice.at].as_slice())
    } else {
        text.line(i - came + splice.removed)
    }
}

/// Returns the lines of a stretch after a splice, borrowed.
pub(crate) fn lines_of<'a>(
    text: &'a LineBuffer,
    splice: &ItemSplice<'a, Vec<u8>>,
    stretch: Stretch,
) -> Result<Vec<&'a [u8]>, AllocError>
    requires range { splice.now.at + splice.now.removed ≤ length text.now.text }
    requires few { length (spliced text.now.text (splice_in splice.now)) ≤ MOST_LINES }
    requires inside { stretch.lines.from + stretch.lines.came ≤ length (spliced text.now.text (splice_in splice.now)) }
    ensures { IfOk result (λ lines. seen_lines lines.items
        ≡ take stretch.lines.came (drop stretch.lines.from (spliced text.now.text (splice_in splice.now)))) }
{
    let mut lines = Vec::with_capacity(text.allocator(), stretch.lines.came)?;
    for nth in 0..stretch.lines.came {
        if let Some(line) = line_after(text, splice, stretch.lines.from + nth) {
            lines.push(line)?;
        }
    }
    Ok(lines)
}

/// Returns how many cells each line of the stretch of a prepared edit has. The edit belongs to the text as it is now.
pub(crate) fn counts_of<C: Compiler>(
    alloc: Global,
    text: &KeptText<C>,
    text_patch: &TextPatch<C>,
) -> Result<Vec<usize>, AllocError>
    requires on { text_patch.now.on ≡ text.now }
    requires few { length text_patch.now.rows ≤ MOST_LINES }
    requires inside { text_patch.now.stretch.lines.from + text_patch.now.stretch.lines.came ≤ length text_patch.now.rows }
    ensures { IfOk result (λ counts. counts.items ≡ map count_in
        (take text_patch.now.stretch.lines.came (drop text_patch.now.stretch.lines.from text_patch.now.rows))) }
{
    let stretch = text_patch.stretch();
    let mut counts: Vec<usize> = Vec::with_capacity(alloc, stretch.lines.came)?;
    for nth in 0..stretch.lines.came {
        if let Some(row) = text_patch.row(text, stretch.lines.from + nth) {
            counts.push(row.cells().len())?;
        }
    }
    Ok(counts)
}
