//! The outputs of the tunes of a stretch, whatever their places in the text.

ghost use Rattle.std.specs.Prelude.{◌≡◌, ◌<◌, IfOk, Some, length, map, option_copied, slice_get, true};
ghost use Rattle.std.specs.List.{AllZip, list_all};
ghost use Rattle.abc_lines.specs.Text.{is_line, seen_lines};
ghost use Rattle.abc_tune_memo.specs.Memo.{Remembers};
ghost use Rattle.abc_live_index.specs.BuildCount.{IsBuiltUpTo, built_count};
ghost use Rattle.abc_live_index.specs.Output.{ReusesOutput, output_in};
ghost use Rattle.abc_live_index.specs.Tunes.{IsTuneAt, line_run};

use crate::key::key_of;
use crate::output::{Output, copied_items};
use crate::stretch_view::{ReusedOutputs, StretchView};
use abc_fold::{Chain, Counts, Shared};
use abc_lines::GapList;
use abc_tune_compiler::Compiler;
use abc_tune_memo::TuneMemo;
use std::alloc::{AllocError, Global};

/// Returns the output of the old tune at index `place`.
fn shared_at(outputs: &GapList<Shared<Output>>, place: usize) -> Result<Shared<Output>, AllocError>
    requires { place < length outputs.now.items }
    ensures { IfOk result (λ output. slice_get outputs.now.items place ≡ Some output) }
{
    outputs.get(place).unwrap().share()
}

/// Returns the chain of the tune at index `place`.
fn chain_at<C: Compiler>(chains: &[Shared<Chain<C>>], place: usize) -> &Chain<C>
    requires { place < length chains.now }
    ensures { slice_get chains.now place ≡ Some result.now }
{
    chains[place].get()
}

/// Returns the output of the tune at index `place`, with the memo's answer for it.
fn output_at<C: Compiler>(
    compiler: &C,
    alloc: Global,
    stretch: &StretchView<C>,
    place: usize,
    memo: &mut TuneMemo<C>,
    work: &mut C::Work,
) -> Result<Shared<Output>, AllocError>
    requires limits { list_all is_line (seen_lines stretch.now.lines.now) ≡ true }
    requires tunes { let c = compiler.now in let s = stretch.now in
        AllZip (IsTuneAt (C.steps c) (C.rules c) (line_run (option_copied s.header_state) s.before
        (seen_lines s.lines.now))) s.chains.now s.places.now }
    requires place { place < length stretch.now.chains.now }
    requires remembers { Remembers (C.steps compiler.now) (C.rules compiler.now) memo.old }
    ensures value { IfOk result (λ output. slice_get (map (output_in (C.rules compiler.now)) stretch.now.chains.now) place
        ≡ Some output) }
    ensures remembers { Remembers (C.steps compiler.now) (C.rules compiler.now) memo.new }
    ensures counted { IsBuiltUpTo 1 (C.Work.counts work.old) (C.Work.counts work.new) }
{
    let key = key_of(compiler, alloc, stretch, stretch.places[place])?;
    let chain = chain_at(stretch.chains, place);
    let items = copied_items(alloc, chain)?;
    let built = memo.built(compiler, key, &items, work)?;
    Shared::new(alloc, Output::of(compiler, alloc, &items, built)?)
}

/// Returns the outputs of the tunes of a stretch, in order: that of an old tune if one is reused, else the memo's answer.
/// The only error is a failed allocation. On every path the compiler builds at most the tunes that reuse none.
pub fn outputs_of<C: Compiler>(
    compiler: &C,
    alloc: Global,
    stretch: &StretchView<C>,
    old: &ReusedOutputs,
    memo: &mut TuneMemo<C>,
    work: &mut C::Work,
) -> Result<Vec<Shared<Output>>, AllocError>
    requires limits { list_all is_line (seen_lines stretch.now.lines.now) ≡ true }
    requires tunes { let c = compiler.now in let s = stretch.now in
        AllZip (IsTuneAt (C.steps c) (C.rules c) (line_run (option_copied s.header_state) s.before
        (seen_lines s.lines.now))) s.chains.now s.places.now }
    requires reused_tunes { AllZip (ReusesOutput
        (C.rules compiler.now) old.now.outputs.now.items) stretch.now.chains.now old.now.reused_tunes.now }
    requires remembers { Remembers (C.steps compiler.now) (C.rules compiler.now) memo.old }
    ensures value { IfOk result (λ outputs. outputs.items ≡ map (output_in (C.rules compiler.now)) stretch.now.chains.now) }
    ensures remembers { Remembers (C.steps compiler.now) (C.rules compiler.now) memo.new }
    ensures counted { IsBuiltUpTo (built_count old.now.reused_tunes.now) (C.Work.counts work.old) (C.Work.counts work.new) }
{
    let mut outputs = Vec::with_capacity(alloc, stretch.chains.len())?;
    for (place, reused_tunes) in old.reused_tunes.iter().enumerate() {
        let output = match reused_tunes {
            Some(other) => shared_at(old.outputs, *other)?,
            None => output_at(compiler, alloc, stretch, place, memo, work)?,
        };
        outputs.push(output)?;
    }
    Ok(outputs)
}
