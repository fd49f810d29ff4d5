//! The source of commands, the sink of answers, and the store of files. Each counts its failures, so that contracts can
//! name the cause of a fault, and may show its bytes.

ghost use Rattle.std.specs.Prelude.{◌≡◌, ◌↔◌, ℕ, List, Option, None, IsTrue, OnOk, MatchResult};
ghost use Rattle.std.specs.Io.{ReadsAtMost};
ghost use Rattle.std.specs.IoError.{error_kind};
ghost use Rattle.std.specs.Io.KnownBytes.{Appends, ReadConsumes};
ghost use Rattle.abc_fold.specs.Work.{raised};
ghost use Rattle.abc2midi_live.specs.Storing.{StoreView};
ghost use Rattle.abc2midi_live.specs.Streams.{faults, Puts, TakesOut, KeepsOthers};

use std::io::{Error, ErrorKind, Read, Write};

/// A stream failed.
#[derive(Clone, Copy, Debug, thiserror::Error)]
#[error("a stream failed")]
pub struct StreamFault;

/// A store failed.
#[derive(Clone, Copy, Debug, thiserror::Error)]
#[error("a store failed")]
pub struct StoreFault;

/// The source of commands.
pub trait Source {
    // How many calls failed.
    ghost failures: { Self → ℕ };

    // The number of calls.
    ghost calls: { Self → ℕ };

    // The bytes to come, if they are known.
    ghost remaining: { Self → Option (List ℕ) } = { λ _. None };

    /// Reads the next bytes into the front of the buffer, and returns how many: none only at the end of the input, or
    /// into an empty buffer. A fault takes no bytes.
    fn read(&mut self, buf: &mut [u8]) -> Result<usize, StreamFault>
        ensures within { ReadsAtMost result buf.new }
        ensures bytes { ReadConsumes (remaining self.old) (remaining self.new) result buf.new }
        ensures failures { failures self.new ≡ raised (failures self.old) (faults result) }
        ensures calls { calls self.new ≡ raised (calls self.old) 1 };
}

/// The sink of answers.
pub trait Sink {
    // How many calls failed.
    ghost failures: { Self → ℕ };

    // The bytes written, if they are known.
    ghost contents: { Self → Option (List ℕ) } = { λ _. None };

    /// Appends all the bytes. After a fault some of them may have been written.
    fn write_all(&mut self, bytes: &[u8]) -> Result<(), StreamFault>
        ensures bytes { OnOk result (Appends (contents self.old) (contents self.new) bytes.now) }
        ensures failures { failures self.new ≡ raised (failures self.old) (faults result) };
}

/// A store of files by their names.
pub trait Store {
    // How many calls failed, how many there were, and the bytes under each name, if they are known.
    ghost seen: { Self → StoreView };

    /// Stores the bytes under the name, instead of the old ones. A fault leaves the other names.
    fn put(&mut self, name: &str, bytes: &[u8]) -> Result<(), StoreFault>
        ensures files { MatchResult result
            (λ _. Puts (seen self.old).contents (seen self.new).contents name.now bytes.now)
            (λ _. KeepsOthers (seen self.old).contents (seen self.new).contents name.now) }
        ensures failures { (seen self.new).failures ≡ raised (seen self.old).failures (faults result) }
        ensures calls { (seen self.new).calls ≡ raised (seen self.old).calls 1 };

    /// Removes the name. An implementation should answer a missing name as one that was there. A fault leaves the other names.
    fn remove(&mut self, name: &str) -> Result<(), StoreFault>
        ensures files { MatchResult result
            (λ _. TakesOut (seen self.old).contents (seen self.new).contents name.now)
            (λ _. KeepsOthers (seen self.old).contents (seen self.new).contents name.now) }
        ensures failures { (seen self.new).failures ≡ raised (seen self.old).failures (faults result) }
        ensures calls { (seen self.new).calls ≡ raised (seen self.old).calls 1 };
}

/// A source over a reader of std, or a sink over a writer.
#[derive(Drop)]
pub struct Piped<T> {
    inner: T,
    failures: u64,
    calls: u64,
}

impl<T> Piped<T> {
    ghost use Rattle.abc2midi_live.specs.Piped.{new_pipe};

    /// Nothing has been read or written yet.
    pub fn new(inner: T) -> Piped<T>
        ensures { result ≡ new_pipe inner }
    {
        Piped {
            inner,
            failures: 0,
            calls: 0,
        }
    }
}

/// Whether a signal interrupted the call, so that it is repeated.
fn is_interrupted(error: &Error) -> bool
    ensures { IsTrue result ↔ (error_kind error.now ≡ ErrorKind.Interrupted) }
{
    error.kind() == ErrorKind::Interrupted
}

#[tactic(auto, using(crate::proofs::Counts::raised_none, crate::proofs::Counts::raised_within))]
impl<T: Read> Source for Piped<T> {
    ghost failures = { λ p. p.failures };

    ghost calls = { λ p. p.calls };

    ghost remaining = { λ p. T.remaining p.inner };

    /// A read that a signal interrupted is repeated.
    fn read(&mut self, buf: &mut [u8]) -> Result<usize, StreamFault> {
        self.calls = self.calls.saturating_add(1);
        for _ in 0..u32::MAX {
            match self.inner.read(buf) {
                Ok(n) => return Ok(n),
                Err(e) if is_interrupted(&e) => {}
                Err(_) => break,
            }
        }
        self.failures = self.failures.saturating_add(1);
        Err(StreamFault)
    }
}

#[tactic(auto, using(crate::proofs::Counts::raised_none, crate::proofs::Counts::raised_within))]
impl<T: Write> Sink for Piped<T> {
    ghost failures = { λ p. p.failures };

    ghost contents = { λ p. T.contents p.inner };

    fn write_all(&mut self, bytes: &[u8]) -> Result<(), StreamFault> {
        match self.inner.write_all(bytes) {
            Ok(()) => Ok(()),
            Err(_) => {
                self.failures = self.failures.saturating_add(1);
                Err(StreamFault)
            }
        }
    }
}
