//! Which lines of a text are compiled: those of its file header and of its tunes, whose places are known.

ghost use Rattle.std.specs.Prelude.{◌≡◌, ◌||◌, ◌-◌, ◌<◌, ℕ};
ghost use Rattle.std.specs.List.{list_any};
ghost use Rattle.abc_book.specs.Laws.{RiseFromTo, holds};
ghost use Rattle.abc_live_session.specs.Tokens.{is_compiled, is_in_block};

use abc_book::Block;
use abc_live_text::KeptText;
use abc_tune_compiler::Compiler;

/// Returns whether a block has the line at an index. No block has none.
fn is_in_block(block: Option<Block>, line: usize) -> bool
    ensures { result ≡ is_in_block line block }
{
    match block {
        Some(block) => block.from <= line && line < block.to,
        None => false,
    }
}

/// Returns whether a tune has the line at an index. The tunes follow one another, so the search halves them.
fn is_in_tune(tunes: &[Block], line: usize) -> bool
    requires { (last : ℕ) × RiseFromTo 0 tunes.now last }
    ensures { result ≡ list_any (holds line) tunes.now }
{
    let first = tunes.partition_point(|tune| tune.to <= line);
    is_in_block(tunes.get(first).copied(), line)
}

/// Returns whether the file header or a tune has the line at an index.
fn is_in_parts(header: Option<Block>, tunes: &[Block], line: usize) -> bool
    requires { (last : ℕ) × RiseFromTo 0 tunes.now last }
    ensures { result ≡ (is_in_block line header || list_any (holds line) tunes.now) }
{
    is_in_block(header, line) || is_in_tune(tunes, line)
}

/// Returns whether the line of a number, counted from 1, is compiled.
pub(crate) fn is_compiled<C: Compiler>(text: &KeptText<C>, number: u32) -> bool
    requires { 0 < number }
    ensures { result ≡ is_compiled (C.rules text.now.compiler) text.now.lines.text (number - 1) }
{
    // For the prover: the kept places are those of the text.
    let _ = text.lines();
    is_in_parts(text.header(), text.tunes(), number as usize - 1)
}
