//! The outputs of a range of tunes, and their faults: a tune of two lines of the toy language, of which the second is a
//! fault.

ghost use Rattle.std.specs.Prelude.{◌≡◌, IfOk, map};
ghost use Rattle.abc_tune_memo.specs.Memo.{Remembers};
ghost use Rattle.abc_live_index.specs.Output.{output_in};
ghost use Rattle.tests_live.specs.Toy.{toy_rules, toy_steps};
ghost use Rattle.tests_memory_session.specs.TitledTune.{AreOfTitled};

use crate::chains::chain_of;
use abc_book::{Block, BlockKind};
use abc_fields::FaultCode;
use abc_fold::{Chain, Shared, Work};
use abc_lines::GapList;
use abc_live_index::{
    Output, ReusedOutputs, StretchView, outputs_of, put_cell_faults, put_tune_faults,
};
use abc_tune::TuneMemo;
use abc_tune_compiler::Fault;
use std::alloc::{AllocError, Global};
use std::rt::Runtime;
use tests_live::toy::Toy;
use tests_memory_layers::report::{again, call, done};
use tests_memory_layers::retry;

/// Returns the place of the two lines.
const PLACE: Block = Block {
    kind: BlockKind::Tune,
    from: 0,
    to: 2,
};

/// The fault of the second line.
const FAULT: Fault = Fault {
    line: 2,
    column: 1,
    code: FaultCode::BadByte,
};

/// The chain of the two lines.
fn chains(alloc: Global, work: &mut Work) -> Result<[Shared<Chain<Toy>>; 1], AllocError>
    ensures { IfOk result AreOfTitled }
{
    let chain = chain_of(alloc, b"T:A", b"!c", work)?;
    Ok([Shared::new(alloc, chain)?])
}

/// Returns the output of the tune, which reuses no output.
fn outputs_of_tune(
    alloc: Global,
    chains: &[Shared<Chain<Toy>>],
    memo: &mut TuneMemo<Toy>,
    work: &mut Work,
) -> Result<Vec<Shared<Output>>, AllocError>
    requires chains { AreOfTitled chains.now }
    requires remembers { Remembers toy_steps toy_rules memo.old }
    ensures value { IfOk result (λ outputs. outputs.items ≡ map (output_in toy_rules) chains.now) }
    ensures remembers { Remembers toy_steps toy_rules memo.new }
{
    let stretch = StretchView {
        lines: &[b"T:A", b"!c"],
        before: 0,
        header_state: None,
        places: &[PLACE],
        chains,
        counts: &[1, 1],
    };
    let none = GapList::with_room(alloc, 0)?;
    let old = ReusedOutputs {
        reused_tunes: &[None],
        outputs: &none,
    };
    outputs_of(&Toy, alloc, &stretch, &old, memo, work)
}

/// Whether that is the output of the tune.
fn is_output_of_tune(outputs: &[Shared<Output>]) -> bool {
    match outputs {
        [output] => {
            let output = output.get();
            output.number == 0 && output.title.as_slice() == b"A".as_slice() && output.faulty
        }
        _ => false,
    }
}

/// Whether that is its fault.
fn is_fault(faults: &[Fault]) -> bool {
    match faults {
        [fault] => *fault == FAULT,
        _ => false,
    }
}

/// The output of the tune, called again after a refused request.
pub fn outputs<R: Runtime>(rt: &R, alloc: Global) -> Result<bool, AllocError> {
    let mut work = Work::mint(rt);
    let chains = chains(alloc, &mut work)?;
    let mut memo = TuneMemo::new(alloc)?;
    call(rt, "outputs_of");
    match outputs_of_tune(alloc, &chains, &mut memo, &mut work) {
        Ok(outputs) => {
            done(rt);
            Ok(is_output_of_tune(&outputs))
        }
        Err(_) => {
            again(rt);
            let outputs = outputs_of_tune(alloc, &chains, &mut memo, &mut work)?;
            done(rt);
            Ok(is_output_of_tune(&outputs))
        }
    }
}

/// Its faults, appended to no others.
pub fn tune_faults<R: Runtime>(rt: &R, alloc: Global) -> Result<bool, AllocError> {
    let mut work = Work::mint(rt);
    let chains = chains(alloc, &mut work)?;
    let outputs = outputs_of_tune(alloc, &chains, &mut TuneMemo::new(alloc)?, &mut work)?;
    let stretch = StretchView {
        lines: &[b"T:A", b"!c"],
        before: 0,
        header_state: None,
        places: &[PLACE],
        chains: &chains,
        counts: &[1, 1],
    };
    let mut faults = Vec::new(alloc);
    call(rt, "put_tune_faults");
    retry!(
        rt,
        put_tune_faults(&Toy, &mut faults, &stretch, &outputs),
        faults.is_empty(),
        is_fault(&faults)
    )
}

/// The faults of its cells, appended to no others.
pub fn cell_faults<R: Runtime>(rt: &R, alloc: Global) -> Result<bool, AllocError> {
    let chain = chain_of(alloc, b"T:A", b"!c", &mut Work::mint(rt))?;
    let stretch = StretchView {
        lines: &[b"T:A", b"!c"],
        before: 0,
        header_state: None,
        places: &[],
        chains: &[],
        counts: &[1, 1],
    };
    let mut faults = Vec::new(alloc);
    call(rt, "put_cell_faults");
    retry!(
        rt,
        put_cell_faults(&Toy, &mut faults, &stretch, &chain, PLACE),
        faults.is_empty(),
        is_fault(&faults)
    )
}
