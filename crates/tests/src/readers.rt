//! A stream over a reader of std whose reads fail.

use abc2midi_live::{Piped, Source, StreamFault};
use std::io::{self, Error, ErrorKind, Read};

/// A reader that returns a byte at a time, and fails at its second read.
#[derive(Drop)]
struct FailsOnce<'a> {
    rest: &'a [u8],
    reads: u8,
    error: ErrorKind,
}

impl Read for FailsOnce<'_> {
    fn read(&mut self, buf: &mut [u8]) -> io::Result<usize> {
        self.reads = self.reads.saturating_add(1);
        if self.reads == 2 {
            return Err(Error::from(self.error));
        }
        let count = self.rest.len().min(buf.len()).min(1);
        let (front, rest) = self.rest.split_at(count);
        buf[..count].copy_from_slice(front);
        self.rest = rest;
        Ok(count)
    }
}

fn over_reader<'a>(rest: &'a [u8], error: ErrorKind) -> Piped<FailsOnce<'a>> {
    Piped::new(FailsOnce {
        rest,
        reads: 0,
        error,
    })
}

/// Returns the next byte, if there is one.
fn next_byte(stream: &mut Piped<FailsOnce<'_>>) -> Result<Option<u8>, StreamFault> {
    let mut buffer = [0];
    let count = stream.read(&mut buffer)?;
    Ok(if count == 1 { Some(buffer[0]) } else { None })
}

/// A read that a signal interrupted is repeated: no byte is lost, and no fault is reported.
#[test]
fn an_interrupted_read_is_made_again(rt: HostRuntime) {
    let mut stream = over_reader(b"ab", ErrorKind::Interrupted);
    assert!(rt; matches!(next_byte(&mut stream), Ok(Some(b'a'))));
    assert!(rt; matches!(next_byte(&mut stream), Ok(Some(b'b'))));
    assert!(rt; matches!(next_byte(&mut stream), Ok(None)));
}

/// One that failed otherwise is not, though the reader would go on.
#[test]
fn a_failed_read_is_a_fault(rt: HostRuntime) {
    let mut stream = over_reader(b"ab", ErrorKind::TimedOut);
    assert!(rt; matches!(next_byte(&mut stream), Ok(Some(b'a'))));
    assert!(rt; next_byte(&mut stream).is_err());
    assert!(rt; matches!(next_byte(&mut stream), Ok(Some(b'b'))));
}
