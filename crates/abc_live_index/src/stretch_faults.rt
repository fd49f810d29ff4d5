//! The faults of the tunes of a stretch and of a file header, with their lines in the text.

ghost use Rattle.std.specs.Prelude.{◌≡◌, ◌+◌, ◌≤◌, ◌++◌, OnErr, OnOk, length, map, take};
ghost use Rattle.std.specs.List.{AllZip};
ghost use Rattle.abc_lines.specs.declared.limits.TheConstants.{MOST_LINES};
ghost use Rattle.abc_live_index.specs.StayInFront.{StayInFront};
ghost use Rattle.abc_live_index.specs.Output.{output_in};
ghost use Rattle.abc_live_index.specs.Tunes.{HasCells, cell_faults_by, faults_by, tune_faults_by};

use crate::output::Output;
use crate::stretch_view::StretchView;
use crate::tune_faults::{put_of_lines, put_of_tune};
use abc_book::Block;
use abc_fold::{Chain, Shared};
use abc_tune_compiler::{Compiler, Fault};
use std::alloc::AllocError;

/// Removes the faults from index `count` on if an allocation failed.
fn undo_if_refused(
    faults: &mut Vec<Fault>,
    count: usize,
    put: Result<(), AllocError>,
) -> Result<(), AllocError>
    ensures same { result ≡ put }
    ensures ok { OnOk result (faults.new.items ≡ faults.old.items) }
    ensures unchanged { OnErr result (faults.new.items ≡ take count faults.old.items) }
{
    if put.is_err() {
        faults.truncate(count);
    }
    put
}

/// Appends the faults of the cells of a chain in a stretch, that of a tune or of the file header. If an allocation fails,
/// nothing is appended.
pub fn put_cell_faults<C: Compiler>(
    compiler: &C,
    faults: &mut Vec<Fault>,
    stretch: &StretchView<C>,
    chain: &Chain<C>,
    place: Block,
) -> Result<(), AllocError>
    requires few { stretch.now.before + length stretch.now.counts.now ≤ MOST_LINES }
    requires cells { HasCells stretch.now.before stretch.now.counts.now chain.now place }
    ensures ok { OnOk result (faults.new.items ≡ faults.old.items
        ++ cell_faults_by (C.rules compiler.now) stretch.now.before stretch.now.counts.now chain.now place) }
    ensures unchanged { OnErr result (faults.new.items ≡ faults.old.items) }
{
    let from = place.from - stretch.before;
    let to = place.to - stretch.before;
    let line = place.from as u32 + 1;
    let count = faults.len();
    let put = put_of_lines(compiler, faults, chain, line, &stretch.counts[from..to]);
    undo_if_refused(faults, count, put)
}

/// Appends the faults of the tune of a chain, which gives this.
#[tactic(auto, using(crate::proofs::Fronts::front_both))]
fn put_of_place<C: Compiler>(
    compiler: &C,
    faults: &mut Vec<Fault>,
    stretch: &StretchView<C>,
    chain: &Chain<C>,
    place: Block,
    output: &Output,
) -> Result<(), AllocError>
    requires few { stretch.now.before + length stretch.now.counts.now ≤ MOST_LINES }
    requires cells { HasCells stretch.now.before stretch.now.counts.now chain.now place }
    requires output { output.now ≡ output_in (C.rules compiler.now) chain.now }
    ensures ok { OnOk result (faults.new.items ≡ faults.old.items
        ++ tune_faults_by (C.rules compiler.now) stretch.now.before stretch.now.counts.now chain.now place) }
    ensures front { StayInFront faults.old.items faults.new.items }
{
    let line = place.from as u32 + 1;
    put_of_tune(faults, line, output.built.faults.get().as_slice())?;
    if output.faulty {
        put_cell_faults(compiler, faults, stretch, chain, place)?;
    }
    Ok(())
}

/// Appends the faults of the tunes of a stretch, by their outputs. If an allocation fails, nothing is appended.
pub fn put_tune_faults<C: Compiler>(
    compiler: &C,
    faults: &mut Vec<Fault>,
    stretch: &StretchView<C>,
    outputs: &[Shared<Output>],
) -> Result<(), AllocError>
    requires few { stretch.now.before + length stretch.now.counts.now ≤ MOST_LINES }
    requires cells { AllZip (HasCells stretch.now.before stretch.now.counts.now) stretch.now.chains.now stretch.now.places.now }
    requires outputs { outputs.now ≡ map (output_in (C.rules compiler.now)) stretch.now.chains.now }
    ensures ok { OnOk result (faults.new.items ≡ faults.old.items
        ++ faults_by
        (C.rules compiler.now) stretch.now.before stretch.now.counts.now stretch.now.chains.now stretch.now.places.now) }
    ensures unchanged { OnErr result (faults.new.items ≡ faults.old.items) }
{
    let count = faults.len();
    for (place, chain) in stretch.chains.iter().enumerate() {
        let output = outputs[place].get();
        let chain = chain.get();
        let put = put_of_place(
            compiler,
            faults,
            stretch,
            chain,
            stretch.places[place],
            output,
        );
        undo_if_refused(faults, count, put)?;
    }
    Ok(())
}
