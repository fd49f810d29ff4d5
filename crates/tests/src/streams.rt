//! Streams in memory that show their contents, and fail at some of their calls.

ghost use Rattle.std.specs.Prelude.{ℕ, Some};

use crate::failing::Failing;
use abc2midi_live::{Sink, Source, StreamFault};

/// A source that returns at most `most` bytes at a time, and fails at some of its calls.
#[derive(Drop)]
pub struct PieceSource<'a> {
    rest: &'a [u8],
    most: usize,
    failing: Failing,
    calls: u64,
    failures: u64,
}

impl<'a> PieceSource<'a> {
    pub fn new(rest: &'a [u8], most: usize, failing: Failing) -> PieceSource<'a> {
        PieceSource {
            rest,
            most,
            failing,
            calls: 0,
            failures: 0,
        }
    }
}

#[tactic(auto, using(abc2midi_live::proofs::Counts::raised_none, abc2midi_live::proofs::Counts::raised_within))]
impl Source for PieceSource<'_> {
    ghost failures = { λ s. s.failures };

    ghost calls = { λ s. s.calls };

    ghost remaining = { λ s. Some s.rest.now };

    fn read(&mut self, buf: &mut [u8]) -> Result<usize, StreamFault> {
        self.calls = self.calls.saturating_add(1);
        if self.failing.at(self.calls) {
            self.failures = self.failures.saturating_add(1);
            return Err(StreamFault);
        }
        let count = self.rest.len().min(buf.len()).min(self.most.max(1));
        let (front, rest) = self.rest.split_at(count);
        buf[..count].copy_from_slice(front);
        self.rest = rest;
        Ok(count)
    }
}

/// A sink that stores the bytes that it gets, and fails at some of its calls.
#[derive(Drop)]
pub struct MemorySink {
    bytes: Vec<u8>,
    failing: Failing,
    calls: u64,
    failures: u64,
}

impl MemorySink {
    /// Nothing written yet.
    pub fn new(bytes: Vec<u8>, failing: Failing) -> MemorySink {
        MemorySink {
            bytes,
            failing,
            calls: 0,
            failures: 0,
        }
    }

    /// Returns the bytes written, and ends the sink.
    pub fn into_bytes(self) -> Vec<u8> {
        self.bytes
    }

    /// Returns the bytes written.
    pub fn written(&self) -> &[u8] {
        self.bytes.as_slice()
    }
}

#[tactic(auto, using(abc2midi_live::proofs::Counts::raised_none, abc2midi_live::proofs::Counts::raised_within))]
impl Sink for MemorySink {
    ghost failures = { λ s. s.failures };

    ghost contents = { λ s. Some s.bytes.items };

    fn write_all(&mut self, bytes: &[u8]) -> Result<(), StreamFault> {
        self.calls = self.calls.saturating_add(1);
        if self.failing.at(self.calls) || self.bytes.extend_from_slice(bytes).is_err() {
            self.failures = self.failures.saturating_add(1);
            return Err(StreamFault);
        }
        Ok(())
    }
}
