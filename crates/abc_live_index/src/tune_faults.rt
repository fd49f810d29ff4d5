//! The faults that cells and whole tunes give.

ghost use Rattle.std.specs.Prelude.{◌≡◌, ◌+◌, ◌-◌, ◌≤◌, ◌++◌, length, map, take, drop, OnOk};
ghost use Rattle.std.specs.List.{sum_by};
ghost use Rattle.abc_live_index.specs.Output.{placed_from};
ghost use Rattle.abc_live_index.specs.StayInFront.{StayInFront};
ghost use Rattle.abc_tune_compiler.specs.Placed.{placed_at};
ghost use Rattle.abc_tune_compiler.specs.Tune.{fault_in, fault_of_tune, faults_along};

use abc_fields::FaultCode;
use abc_fold::Chain;
use abc_tune_compiler::{Compiler, Fault};
use std::alloc::AllocError;

/// Appends the faults of a cell of a line.
fn put_of_cell(
    faults: &mut Vec<Fault>,
    line: u32,
    found: &[(u32, FaultCode)],
) -> Result<(), AllocError>
    ensures ok { OnOk result (faults.new.items ≡ faults.old.items ++ map (fault_in line) found.now) }
    ensures front { StayInFront faults.old.items faults.new.items }
{
    for (column, code) in found {
        faults.push(Fault {
            line,
            column: *column,
            code: *code,
        })?;
    }
    Ok(())
}

/// Appends the faults of the cells of a line, which are the cells `from..to` of a chain.
#[tactic(auto, using(crate::proofs::Fronts::front_both))]
fn put_of_line<C: Compiler>(
    compiler: &C,
    faults: &mut Vec<Fault>,
    line: u32,
    chain: &Chain<C>,
    from: usize,
    to: usize,
) -> Result<(), AllocError>
    requires order { from ≤ to }
    requires inside { to ≤ length chain.now.items }
    ensures ok { OnOk result (faults.new.items ≡ faults.old.items
        ++ faults_along (C.rules compiler.now).faults (map (placed_at line) (take (to - from) (drop from chain.now.items)))) }
    ensures front { StayInFront faults.old.items faults.new.items }
{
    for i in from..to {
        if let Some(items) = chain.items(i) {
            put_of_cell(faults, line, compiler.faults(items))?;
        }
    }
    Ok(())
}

/// Appends the faults of the cells of a chain, by how many of its cells each line has. `first` is the number of the
/// first of these lines.
#[tactic(auto, using(crate::proofs::Fronts::front_both))]
pub(crate) fn put_of_lines<C: Compiler>(
    compiler: &C,
    faults: &mut Vec<Fault>,
    chain: &Chain<C>,
    first: u32,
    counts: &[usize],
) -> Result<(), AllocError>
    requires few { first + length counts.now ≤ u32.MAX }
    requires shape { length chain.now.items ≡ length chain.now.cells }
    requires inside { sum_by (λ count. count) counts.now ≤ length chain.now.cells }
    ensures ok { OnOk result (faults.new.items ≡ faults.old.items
        ++ faults_along (C.rules compiler.now).faults (placed_from first counts.now chain.now.items)) }
    ensures front { StayInFront faults.old.items faults.new.items }
{
    // For the prover: the count of a chain's cells fits.
    let _ = chain.len();
    let mut from = 0;
    for (at, count) in counts.iter().enumerate() {
        let to = from + *count;
        put_of_line(compiler, faults, first + at as u32, chain, from, to)?;
        from = to;
    }
    Ok(())
}

/// Appends the faults of a tune as a whole, whose first line is `line`.
pub(crate) fn put_of_tune(
    faults: &mut Vec<Fault>,
    line: u32,
    codes: &[FaultCode],
) -> Result<(), AllocError>
    ensures ok { OnOk result (faults.new.items ≡ faults.old.items ++ map (fault_of_tune line) codes.now) }
    ensures front { StayInFront faults.old.items faults.new.items }
{
    for code in codes {
        faults.push(Fault {
            line,
            column: 1,
            code: *code,
        })?;
    }
    Ok(())
}
