//! The keys of tunes in the memo.

ghost use Rattle.std.specs.Prelude.{◌≡◌, IfOk, length, option_copied};
ghost use Rattle.abc_lines.specs.Text.{seen_lines};
ghost use Rattle.abc_tune_memo.specs.Bytes.{bytes_of_lines};
ghost use Rattle.abc_live_index.specs.Key.{defaults_by, key_by};
ghost use Rattle.abc_live_index.specs.Tunes.{LiesAmong, lowered_place};

use crate::stretch_view::StretchView;
use abc_book::Block;
use abc_text::Sequence;
use abc_tune_compiler::Compiler;
use abc_tune_memo::{TuneKey, put_line};
use std::alloc::{AllocError, Global};

/// Returns the defaults that a file header sets, by the state after its last cell; without one, those of an empty file header.
fn defaults_by<C: Compiler>(
    compiler: &C,
    alloc: Global,
    header_state: Option<&C::State>,
) -> C::Defaults
    ensures { result ≡ defaults_by (C.rules compiler.now) (option_copied header_state.entry) }
{
    match header_state {
        Some(state) => compiler.defaults(state),
        None => compiler.defaults(&compiler.header(alloc)),
    }
}

/// Returns the bytes of lines in a key.
fn bytes_of<C: Compiler>(
    compiler: &C,
    alloc: Global,
    lines: &[&[u8]],
) -> Result<Sequence<u8>, AllocError>
    ensures { IfOk result (λ bytes. bytes ≡ bytes_of_lines (C.rules compiler.now).class (seen_lines lines.now)) }
{
    let mut bytes = Vec::new(alloc);
    for line in lines {
        put_line(&mut bytes, compiler.class(line), line)?;
    }
    Ok(Sequence::from(bytes))
}

/// Returns the memo's key of the tune of a place.
pub(crate) fn key_of<C: Compiler>(
    compiler: &C,
    alloc: Global,
    stretch: &StretchView<C>,
    place: Block,
) -> Result<TuneKey<C::Defaults>, AllocError>
    requires { LiesAmong stretch.now.before (length stretch.now.lines.now) place }
    ensures { IfOk result (λ key. key ≡ key_by (C.rules compiler.now) (option_copied stretch.now.header_state)
        (seen_lines stretch.now.lines.now) (lowered_place stretch.now.before place)) }
{
    let from = place.from - stretch.before;
    let to = place.to - stretch.before;
    let bytes = bytes_of(compiler, alloc, &stretch.lines[from..to])?;
    let defaults = defaults_by(compiler, alloc, stretch.header_state);
    Ok(TuneKey { defaults, bytes })
}
