//! Splices of one line in a long text, for timing.
ghost use Rattle.std.specs.Prelude.{SomeIff};
ghost use Rattle.tests_work.specs.Splices.{AreNumbers, IsNumber, run_of, value_of};

use abc_lines::{EditError, LineBuffer};
use std::alloc::Global;
use std::io::{self, ErrorKind};
use std::rt::Runtime;

/// Each line of the text before the splices.
const OLD_LINE: &[u8] = b"CDEF GABc";

/// The line of each splice.
const NEW_LINE: &[u8] = b"cBAG FEDC";

/// Splices of one line, as the command line asks for them.
#[derive(Clone, Copy)]
pub(crate) struct SpliceRun {
    /// The number of lines of the text.
    lines: u32,
    /// The number of splices.
    count: u32,
    /// The number of lines from each splice to the next.
    step: u32,
}

impl SpliceRun {
    /// Returns the splices that the words LINES COUNT STEP ask for, if they are three numbers.
    pub(crate) fn of(words: &[String]) -> Option<SpliceRun>
        ensures exact { SomeIff result (AreNumbers words.now) (run_of words.now) }
    {
        let [lines, count, step] = words else {
            return None;
        };
        Some(SpliceRun {
            lines: number(lines)?,
            count: number(count)?,
            step: number(step)?,
        })
    }

    /// Makes the splices, and prints how many lines there are, and how many of them are new.
    pub(crate) fn make<R: Runtime + AllocGlobal>(self, rt: &R) -> io::Result<()> {
        match splice_lines(rt.alloc(), self.lines, self.count, self.step) {
            Ok(text) => println!(rt; "{} lines, {} new", text.len(), new_lines(&text)),
            Err(EditError::OutOfMemory) => Err(io::Error::from(ErrorKind::OutOfMemory)),
            Err(_) => Err(io::Error::from(ErrorKind::InvalidInput)),
        }
    }
}

/// Returns the number that a word spells, if it is below 2^32.
fn number(word: &str) -> Option<u32>
    ensures exact { SomeIff result (IsNumber word.now) (value_of word.now) }
{
    word.parse().ok()
}

/// Returns the number of lines of a text that splices have put there.
fn new_lines(text: &LineBuffer) -> usize {
    (0..text.len())
        .filter(|at| text.line(*at) == Some(NEW_LINE))
        .count()
}

/// Returns a text of `lines` lines after `splices` splices of one line. Each splice is `step` lines after the one before it.
fn splice_lines(
    alloc: Global,
    lines: u32,
    splices: u32,
    step: u32,
) -> Result<LineBuffer, EditError> {
    let mut text = LineBuffer::new(alloc)?;
    let mut all = Vec::new(alloc);
    for _ in 0..lines {
        all.push(Vec::from_slice(alloc, OLD_LINE)?)?;
    }
    let patch = text.splice_prepare(0, 0, &all)?;
    text.commit(patch);
    let one = vec![in alloc; Vec::from_slice(alloc, NEW_LINE)?]?;
    for splice in 0..splices {
        let at = u64::from(splice) * u64::from(step) % u64::from(lines.max(1));
        let patch = text.splice_prepare(at as usize, 1, &one)?;
        text.commit(patch);
    }
    Ok(text)
}
