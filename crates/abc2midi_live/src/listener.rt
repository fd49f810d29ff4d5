//! Bytes that come in pieces, cut into lines for a machine whose answers go to a sink.

ghost use Rattle.std.specs.Prelude.{◌≡◌, ◌<◌, ◌≤◌, [], ◌∷◌, ◌++◌, take, length, true, false, OnOk, MatchResult};
ghost use Rattle.std.specs.Io.KnownBytes.{Appends};
ghost use Rattle.abc_text.specs.Byte.{line_feed};
ghost use Rattle.abc2midi_live.specs.Machine.{IsClean};
ghost use Rattle.abc2midi_live.specs.Outcome.{
  read_faults,
  write_faults,
  outlets_of,
  run_ends_of,
  FeedsOrBreaks,
  ServesOrFails,
  TellsOrFails,
  TurnsOrFails,
};
ghost use Rattle.abc2midi_live.specs.Transcript.{most_kept};
ghost use Rattle.abc_fold.specs.Work.{raised};

use crate::machine::{Machine, Reply};
use crate::run_fault::RunFault;
use crate::streams::{Sink, Source, Store};
use abc_fold::Work;
use abc_lines::LONGEST_LINE;
use abc_text::cut_at;
use std::alloc::{AllocError, Global};
use std::mem;

/// The most stored bytes of a line of the input: one more than a line of a text may have.
const MOST_KEPT: usize = LONGEST_LINE + 1;

/// Passes a line to the machine and writes its answer. Returns whether the machine goes on.
#[tactic(auto, using(crate::proofs::Counts::raised_none))]
fn serve<M: Machine, W: Sink, S: Store>(
    machine: &mut M,
    writer: &mut W,
    line: Vec<u8>,
    store: &mut S,
    work: &mut Work,
) -> Result<bool, RunFault>
    ensures answer { let out = outlets_of W.contents S.seen in
        ServesOrFails (M.state machine.old) (M.state machine.new) (line.items ∷ []) (out writer.old store.old)
        (out writer.new store.new) result }
    ensures failures { W.failures writer.new ≡ raised (W.failures writer.old) (write_faults result) }
    ensures uncounted { OnOk result (M.costs machine.old line.items ≡ false → work.new ≡ work.old) }
{
    match machine.take_line(line, store, work)? {
        Reply::Nothing => Ok(true),
        Reply::Answer(text) => match writer.write_all(&text) {
            Ok(()) => Ok(true),
            Err(_) => Err(RunFault::Write),
        },
        Reply::End => Ok(false),
    }
}

/// Writes a text, if there is one.
#[tactic(auto, using(crate::proofs::Counts::raised_none))]
fn write_text<W: Sink>(writer: &mut W, text: &[u8]) -> Result<(), RunFault>
    ensures answer { MatchResult result
        (λ _. Appends (W.contents writer.old) (W.contents writer.new) text.now)
        (λ fault. fault ≡ RunFault.Write) }
    ensures failures { W.failures writer.new ≡ raised (W.failures writer.old) (write_faults result) }
{
    if text.is_empty() {
        return Ok(());
    }
    match writer.write_all(text) {
        Ok(()) => Ok(()),
        Err(_) => Err(RunFault::Write),
    }
}

/// A machine, the part of its next line that has come, and the allocator of lines.
#[derive(Drop)]
pub struct Listener<M> {
    machine: M,
    begun: Vec<u8>,
    alloc: Global,
    ghost whole: { IsClean begun.items },
    ghost kept: { length begun.items ≤ most_kept },
}

#[tactic(auto, using(crate::proofs::Counts::raised_none, crate::proofs::Feeding::is_clean))]
impl<M: Machine> Listener<M> {
    ghost use Rattle.abc2midi_live.specs.Listener.{at_byte};

    /// Nothing has come yet.
    pub fn new(alloc: Global, machine: M) -> Listener<M>
        ensures machine { result.machine ≡ machine }
        ensures begun { result.begun.items ≡ [] }
    {
        Listener {
            machine,
            begun: Vec::new(alloc),
            alloc,
        }
    }

    /// Returns the machine, without the part of a line that has come.
    pub fn into_machine(self) -> M
        ensures { result ≡ self.machine }
    {
        self.machine
    }

    /// Stores the bytes that fit.
    fn keep(&mut self, piece: &[u8]) -> Result<(), AllocError>
        requires { IsClean piece.now }
        ensures begun { OnOk result (self.new.begun.items ≡ take most_kept (self.old.begun.items ++ piece.now)) }
        ensures machine { self.new.machine ≡ self.old.machine }
    {
        let room = MOST_KEPT - self.begun.len();
        self.begun
            .extend_from_slice(&piece[..piece.len().min(room)])
    }

    /// Takes the line that has come.
    fn take_partial_line(&mut self) -> Vec<u8>
        ensures line { result.items ≡ self.old.begun.items }
        ensures begun { self.new.begun.items ≡ [] }
        ensures machine { self.new.machine ≡ self.old.machine }
    {
        mem::replace(&mut self.begun, Vec::new(self.alloc))
    }

    /// Serves the line that the piece ends.
    fn end_line<W: Sink, S: Store>(
        &mut self,
        writer: &mut W,
        piece: &[u8],
        store: &mut S,
        work: &mut Work,
    ) -> Result<bool, RunFault>
        requires { IsClean piece.now }
        ensures answer { let out = outlets_of W.contents S.seen in ServesOrFails (at_byte M.state self.old)
            (at_byte M.state self.new)
            (piece.now ++ line_feed ∷ []) (out writer.old store.old) (out writer.new store.new) result }
        ensures failures { W.failures writer.new ≡ raised (W.failures writer.old) (write_faults result) }
    {
        self.keep(piece)?;
        let line = self.take_partial_line();
        serve(&mut self.machine, writer, line, store, work)
    }

    /// Serves the lines that end in a piece of the input, and stores the rest. Returns whether the machine goes on.
    pub fn feed<W: Sink, S: Store>(
        &mut self,
        writer: &mut W,
        piece: &[u8],
        store: &mut S,
        work: &mut Work,
    ) -> Result<bool, RunFault>
        ensures answer { let out = outlets_of W.contents S.seen in FeedsOrBreaks (at_byte M.state self.old)
            (at_byte M.state self.new)
            piece.now (out writer.old store.old) (out writer.new store.new) result }
        ensures failures { W.failures writer.new ≡ raised (W.failures writer.old) (write_faults result) }
    {
        let mut rest = piece;
        'lines: loop {
            match cut_at(rest, b'\n') {
                Some((line, after)) => {
                    if !self.end_line(writer, line, store, work)? {
                        return Ok(false);
                    }
                    rest = after;
                }
                None => {
                    self.keep(rest)?;
                    return Ok(true);
                }
            }
        }
    }

    /// Serves the last line, if one has begun, and writes the machine's answer to the end of the input.
    pub fn finish<W: Sink, S: Store>(
        &mut self,
        writer: &mut W,
        store: &mut S,
        work: &mut Work,
    ) -> Result<(), RunFault>
        ensures answer { let out = outlets_of W.contents S.seen in
            TellsOrFails (at_byte M.state self.old) (out writer.old store.old) (out writer.new store.new) result }
        ensures begun { self.new.begun.items ≡ [] }
        ensures failures { W.failures writer.new ≡ raised (W.failures writer.old) (write_faults result) }
    {
        if self.begun.is_empty() {
            return write_text(writer, self.machine.on_end_of_input());
        }
        let line = self.take_partial_line();
        if serve(&mut self.machine, writer, line, store, work)? {
            write_text(writer, self.machine.on_end_of_input())
        } else {
            Ok(())
        }
    }

    /// Reads once, and serves the bytes, or the end of the input. Returns whether the run goes on.
    pub fn serve_read<R: Source, W: Sink, S: Store>(
        &mut self,
        buffer: &mut [u8],
        reader: &mut R,
        writer: &mut W,
        store: &mut S,
        work: &mut Work,
    ) -> Result<bool, RunFault>
        requires { 0 < length buffer.old }
        ensures answers { let e = run_ends_of R.remaining W.contents S.seen in TurnsOrFails (at_byte M.state self.old)
            (at_byte M.state self.new)
            (e reader.old writer.old store.old) (e reader.new writer.new store.new) result }
        ensures calls { R.calls reader.new ≡ raised (R.calls reader.old) 1 }
        ensures reads { R.failures reader.new ≡ raised (R.failures reader.old) (read_faults result) }
        ensures writes { W.failures writer.new ≡ raised (W.failures writer.old) (write_faults result) }
    {
        let count = match reader.read(buffer) {
            Ok(count) => count,
            Err(_) => return Err(RunFault::Read),
        };
        if count > 0 {
            return self.feed(writer, &buffer[..count], store, work);
        }
        self.finish(writer, store, work)?;
        Ok(false)
    }
}
