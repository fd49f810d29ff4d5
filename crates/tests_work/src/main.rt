//! Measures the library. `tests_work work` prints the work of each edit of its input, and
//! `tests_work splices LINES COUNT STEP` makes splices in a long text, for timing.
#![tactic(auto)]

mod splices;
mod work;

use splices::SpliceRun;
use std::env;
use std::io::{self, ErrorKind};
use std::process::ExitCode;
use std::rt::Runtime;

fn main(rt: HostRuntime) -> ExitCode {
    match measure(&rt) {
        Ok(true) => ExitCode::SUCCESS,
        Ok(false) => {
            let _ = eprintln!(rt; "usage: tests_work work | tests_work splices LINES COUNT STEP");
            ExitCode::from(2)
        }
        Err(error) => {
            let _ = eprintln!(rt; "{error}");
            ExitCode::from(1)
        }
    }
}

/// Makes the measurement that the command line names. Returns whether it names one.
fn measure<R: Runtime + AllocGlobal>(rt: &R) -> io::Result<bool> {
    let words: Vec<String> = match env::args(rt) {
        Ok(words) => words.collect(rt.alloc())?,
        // A word is not UTF-8.
        Err(error) if error.kind() == ErrorKind::InvalidData => return Ok(false),
        Err(error) => return Err(error),
    };
    match words.as_slice() {
        [_, name] if name.as_str() == "work" => work::print_work(rt)?,
        [_, name, numbers @ ..] if name.as_str() == "splices" => {
            let Some(splices) = SpliceRun::of(numbers) else {
                return Ok(false);
            };
            splices.make(rt)?;
        }
        _ => return Ok(false),
    }
    Ok(true)
}
