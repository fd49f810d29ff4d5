//! The parts of a session: a text with its chains, and a book.

ghost use Rattle.std.specs.Prelude.{◌≡◌, IfOk};

use abc_fields::FaultCode;
use abc_fold::{Shared, Work};
use abc_lines::{EditError, ItemRange, Replacement};
use abc_live_index::{KeptBook, NewTunes, Output};
use abc_live_text::{ItemSplice, KeptText, read_rows};
use abc_text::Sequence;
use abc_tune::Built;
use abc_tune_compiler::Fault;
use std::alloc::{AllocError, Global};
use std::rt::Runtime;
use tests_live::toy::Toy;
use tests_memory_layers::lines_of;
use tests_memory_layers::report::{call, done, silent};

/// Two lines in the toy language, each with what it is and its cells.
pub fn read_lines<R: Runtime>(rt: &R, alloc: Global) -> Result<bool, AllocError> {
    let mut work = Work::mint(rt);
    let lines = lines_of(alloc, &[b"D:5", b"c"])?;
    call(rt, "read_rows");
    let rows = read_rows(alloc, &Toy, &lines, &mut work)?;
    done(rt);
    Ok(rows.len() == 2 && rows[1].cells().len() == 1)
}

/// A text without lines.
pub fn empty_text(rt: &impl Runtime, alloc: Global) -> Result<bool, AllocError> {
    call(rt, "KeptText::new");
    let text = KeptText::new(alloc, Toy)?;
    done(rt);
    Ok(text.lines().len() == 0)
}

/// The splice that inserts lines at the start of a text.
fn at_start(lines: &[Vec<u8>]) -> ItemSplice<'_, Vec<u8>> {
    ItemSplice {
        at: 0,
        removed: 0,
        new: lines,
    }
}

/// A tune of three lines in the toy language for it.
pub fn edited_text<R: Runtime>(rt: &R, alloc: Global) -> Result<bool, AllocError> {
    let mut work = Work::mint(rt);
    let lines = lines_of(alloc, &[b"X:1", b"D:5", b"c"])?;
    let mut text = KeptText::new(alloc, Toy)?;
    call(rt, "KeptText::prepare");
    match text.prepare(&at_start(&lines), &mut work) {
        Ok(patch) => {
            done(rt);
            silent(rt, "KeptText::commit");
            text.commit(patch);
            done(rt);
            Ok(text.lines().len() == 3)
        }
        Err(EditError::OutOfMemory) => Err(AllocError),
        Err(_) => Ok(false),
    }
}

/// The same tune, whose patch is dropped.
pub fn dropped_text<R: Runtime>(rt: &R, alloc: Global) -> Result<bool, AllocError> {
    let mut work = Work::mint(rt);
    let lines = lines_of(alloc, &[b"X:1", b"D:5", b"c"])?;
    let text = KeptText::new(alloc, Toy)?;
    match text.prepare(&at_start(&lines), &mut work) {
        Ok(patch) => {
            silent(rt, "TextPatch::drop_patch");
            patch.drop_patch();
            done(rt);
            Ok(text.lines().len() == 0)
        }
        Err(EditError::OutOfMemory) => Err(AllocError),
        Err(_) => Ok(false),
    }
}

/// Returns the output of a tune of the number 1, with a file of one byte.
fn output(alloc: Global) -> Result<Shared<Output>, AllocError> {
    let built = Built {
        bytes: Some(Shared::new(alloc, Sequence::from_slice(alloc, b"M")?)?),
        faults: Shared::new(alloc, Sequence::new(alloc))?,
    };
    let output = Output {
        number: 1,
        title: Sequence::new(alloc),
        built,
        faulty: true,
    };
    Shared::new(alloc, output)
}

/// The fault of that tune.
const FAULT: Fault = Fault {
    line: 1,
    column: 1,
    code: FaultCode::BadLength,
};

/// That tune instead of none.
fn new_tune(alloc: Global) -> Result<NewTunes, AllocError>
    ensures front { IfOk result (λ tunes. tunes.range.from ≡ 0) }
    ensures following { IfOk result (λ tunes. tunes.range.to ≡ 0) }
{
    let mut outputs = Vec::new(alloc);
    outputs.push(output(alloc)?)?;
    Ok(NewTunes {
        range: ItemRange { from: 0, to: 0 },
        outputs,
        lines: Replacement {
            from: 0,
            to: 0,
            came: 1,
        },
        faults: Vec::from_slice(alloc, &[FAULT])?,
    })
}

/// That tune for a book of none.
pub fn edited_book(rt: &impl Runtime, alloc: Global) -> Result<bool, AllocError> {
    let tune = new_tune(alloc)?;
    let mut book = KeptBook::new(alloc)?;
    call(rt, "KeptBook::prepare");
    let patch = book.prepare(alloc, tune)?;
    done(rt);
    silent(rt, "KeptBook::commit");
    let report = book.commit(patch);
    done(rt);
    Ok(report.written.as_slice() == [1].as_slice() && book.faults().len() == 1)
}

/// The same tune, whose patch is dropped.
pub fn dropped_book(rt: &impl Runtime, alloc: Global) -> Result<bool, AllocError> {
    let tune = new_tune(alloc)?;
    let book = KeptBook::new(alloc)?;
    let patch = book.prepare(alloc, tune)?;
    silent(rt, "BookPatch::drop_patch");
    patch.drop_patch();
    done(rt);
    Ok(book.faults().is_empty())
}
