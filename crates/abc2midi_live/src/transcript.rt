//! A run of commands: read, carried out, answered.

ghost use Rattle.std.specs.Prelude.{◌≡◌, IfOk, option_copied};
ghost use Rattle.abc2midi_live.specs.Outcome.{write_faults, run_view_of, Runs};
ghost use Rattle.abc_fold.specs.Work.{raised};
ghost use Rattle.abc_publish.specs.Publisher.{maps_of};
ghost use Rattle.abc2midi_live.specs.DialogueState.{OpensOrFails};
ghost use Rattle.abc2midi_live.specs.Transcript.{no_directory};

use crate::dialogue::Dialogue;
use crate::run_fault::RunFault;
use crate::run_loop::listen;
use crate::streams::{Sink, Source, Store};
use abc_fold::Work;
use std::alloc::Global;
use std::mem;

/// Returns the dialogue on the text of a tune book, if there is one, after it has written the answer.
#[tactic(auto, using(crate::proofs::Counts::raised_none))]
fn open_dialogue<W: Sink>(
    alloc: Global,
    book: Option<&[u8]>,
    writer: &mut W,
    work: &mut Work,
) -> Result<Dialogue, RunFault>
    ensures answer { OpensOrFails (option_copied book.entry) (W.contents writer.old) (W.contents writer.new) result }
    ensures directory { IfOk result (λ d. (maps_of d.publisher).directory ≡ no_directory) }
    ensures failures { W.failures writer.new ≡ raised (W.failures writer.old) (write_faults result) }
{
    let mut dialogue = Dialogue::new(alloc)?;
    match book {
        None => Ok(dialogue),
        Some(bytes) => {
            let text = dialogue.take_book(bytes, work)?;
            match writer.write_all(&text) {
                Ok(()) => Ok(dialogue),
                Err(_) => Err(RunFault::Write),
            }
        }
    }
}

/// Runs the commands, and returns the dialogue after them.
fn dialogue_after_run<R: Source, W: Sink, S: Store>(
    alloc: Global,
    book: Option<&[u8]>,
    reader: &mut R,
    writer: &mut W,
    store: &mut S,
    work: &mut Work,
) -> Result<Dialogue, RunFault>
    ensures value { let v = run_view_of R.remaining R.failures R.calls W.contents W.failures S.seen in
        Runs (option_copied book.entry) (v reader.old writer.old store.old) (v reader.new writer.new store.new) result }
{
    let dialogue = open_dialogue(alloc, book, writer, work)?;
    listen(alloc, dialogue, reader, writer, store, work)
}

/// Puts the lines of a tune book, if there is one, into an empty text, and writes the answer. Then reads commands to the end of the
/// input or `quit`, carries them out, and writes their answers. `build` stores and removes files.
///
/// The fault is `Read` if the reader fails or after 4,294,967,295 reads, `Write` if the writer fails, and `Memory`
/// if an allocation fails. A fault of the store is no fault of the run.
pub fn run<R: Source, W: Sink, S: Store>(
    alloc: Global,
    book: Option<&[u8]>,
    reader: &mut R,
    writer: &mut W,
    store: &mut S,
    work: &mut Work,
) -> Result<(), RunFault>
    ensures value { let v = run_view_of R.remaining R.failures R.calls W.contents W.failures S.seen in
        Runs (option_copied book.entry) (v reader.old writer.old store.old) (v reader.new writer.new store.new) result }
{
    let _dialogue = dialogue_after_run(alloc, book, reader, writer, store, work)?;
    Ok(())
}

/// The same as `run`, for a process that ends after it. After `Ok` it does not free the memory of the session: the
/// operating system reclaims that at once. A caller that goes on after the run calls `run`.
pub fn run_before_exit<R: Source, W: Sink, S: Store>(
    alloc: Global,
    book: Option<&[u8]>,
    reader: &mut R,
    writer: &mut W,
    store: &mut S,
    work: &mut Work,
) -> Result<(), RunFault>
    ensures value { let v = run_view_of R.remaining R.failures R.calls W.contents W.failures S.seen in
        Runs (option_copied book.entry) (v reader.old writer.old store.old) (v reader.new writer.new store.new) result }
{
    let dialogue = dialogue_after_run(alloc, book, reader, writer, store, work)?;
    mem::forget(dialogue);
    Ok(())
}
