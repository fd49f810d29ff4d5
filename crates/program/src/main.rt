//! The program: its arguments, its standard streams, its exit statuses.
#![tactic(auto)]

mod arguments;
mod directory;

ghost use Rattle.std.specs.Prelude.{◌≡◌, ◌≢◌, is_none, is_some, true, IfOk, IsOk};

use abc_fold::Work;
use abc2midi_live::{Piped, RunFault, fault_of_book, run_before_exit};
use arguments::command;
use clap::error::ErrorKind;
use directory::{Directory, PathKind};
use std::alloc::AllocError;
use std::process::ExitCode;
use std::rt::{Files, Runtime};
use std::{env, fs, io};

/// The reason for an exit status other than 0.
#[derive(Drop)]
enum Failure {
    /// A stream failed, or memory ran out.
    Run(RunFault),
    /// The arguments are wrong, or help or the version was asked for.
    Arguments(clap::Error),
    /// An argument is not UTF-8.
    NotText,
}

impl From<RunFault> for Failure {
    ghost use Rattle.program.specs.declared.Failure.TheVariants.{Run};

    ghost from_gives = { λ fault failure. failure ≡ Run fault };

    fn from(fault: RunFault) -> Failure {
        Failure::Run(fault)
    }
}

impl From<AllocError> for Failure {
    ghost use Rattle.abc2midi_live.specs.declared.run_fault.RunFault.TheVariants.{Memory};
    ghost use Rattle.program.specs.declared.Failure.TheVariants.{Run};

    ghost from_gives = { λ _ failure. failure ≡ Run Memory };

    fn from(_error: AllocError) -> Failure {
        Failure::Run(RunFault::Memory)
    }
}

impl From<clap::Error> for Failure {
    fn from(error: clap::Error) -> Failure {
        match error.kind() {
            ErrorKind::OutOfMemory => Failure::Run(RunFault::Memory),
            _ => Failure::Arguments(error),
        }
    }
}

fn main(rt: HostRuntime) -> ExitCode {
    match converse(&rt) {
        Ok(()) => ExitCode::SUCCESS,
        Err(Failure::Run(fault)) => {
            let _ = eprintln!(rt; "{fault}");
            ExitCode::from(status_of(fault))
        }
        Err(Failure::Arguments(error)) => {
            let _ = eprint!(rt; "{error}");
            ExitCode::from(2)
        }
        Err(Failure::NotText) => {
            let _ = eprintln!(rt;
                "error: an argument is not UTF-8 text\n\nFor more information, try '--help'."
            );
            ExitCode::from(2)
        }
    }
}

/// Returns the exit status of a run that failed.
fn status_of(fault: RunFault) -> u8
    ensures memory { fault ≡ RunFault.Memory → result ≡ 3 }
    ensures streams { fault ≢ RunFault.Memory → result ≡ 1 }
{
    match fault {
        RunFault::Read | RunFault::Write => 1,
        RunFault::Memory => 3,
    }
}

/// Returns the words of the command line.
fn words_of<R: Runtime + AllocGlobal>(rt: &R) -> Result<Vec<String>, Failure> {
    match env::args(rt) {
        Ok(words) => Ok(words.collect(rt.alloc())?),
        Err(error) if error.kind() == io::ErrorKind::InvalidData => Err(Failure::NotText),
        Err(_) => Err(Failure::Run(RunFault::Memory)),
    }
}

/// Prints a warning on standard error if no MIDI file can be stored. The run continues.
fn warn<R: Runtime + AllocGlobal>(rt: &R, dir: &str, kind: PathKind) {
    let _ = match kind {
        PathKind::Folder => Ok(()),
        PathKind::NoFolder => {
            eprintln!(rt; "warning: '{dir}' is no folder, so no MIDI file can be stored in it")
        }
        PathKind::Nothing => {
            eprintln!(rt;
                "warning: there is no folder '{dir}', so no MIDI file can be stored in it"
            )
        }
        PathKind::Unreachable(error) => {
            eprintln!(rt;
                "warning: the folder '{dir}' cannot be reached, so no MIDI file can be stored in it: {error}"
            )
        }
    };
}

/// Prints a warning on standard error if the tune book is refused. The run continues with an empty text.
fn warn_of_book<R: Runtime + AllocGlobal>(rt: &R, path: &str, book: &[u8]) {
    if let Some(fault) = fault_of_book(book) {
        let _ = eprintln!(rt; "warning: the tune book '{path}' is refused: {fault}");
    }
}

/// Returns the bytes of the tune book, if there is one. If it cannot be read or is refused, prints why on standard error.
fn book_of<R: Runtime + Files + AllocGlobal>(
    rt: &R,
    path: Option<&str>,
) -> Result<Option<Vec<u8>>, Failure>
    ensures book { IfOk result (λ book. is_some book ≡ is_some path.entry) }
    ensures none { is_none path.entry ≡ true → IsOk result }
{
    let Some(path) = path else {
        return Ok(None);
    };
    match fs::read(rt, path) {
        Ok(bytes) => {
            warn_of_book(rt, path, &bytes);
            Ok(Some(bytes))
        }
        Err(error) if error.kind() == io::ErrorKind::OutOfMemory => {
            Err(Failure::Run(RunFault::Memory))
        }
        Err(error) => {
            let _ = eprintln!(rt; "error: the tune book '{path}' cannot be read: {error}");
            Err(Failure::Run(RunFault::Read))
        }
    }
}

/// Reads the arguments, then the tune book, then the commands on standard input, and answers them on standard output.
fn converse<R: Runtime + AllocGlobal>(rt: &R) -> Result<(), Failure> {
    let alloc = rt.alloc();
    let words = words_of(rt)?;
    let matches = command(alloc)?.try_get_matches_from(words.as_slice())?;
    let dir = matches.get_str("dir").unwrap_or("");
    let mut reader = Piped::new(rt.reader());
    let mut writer = Piped::new(io::writer(rt));
    let mut store = Directory::new(rt, dir);
    warn(rt, dir, store.path_kind());
    let book = book_of(rt, matches.get_str("book"))?;
    let mut work = Work::mint(rt);
    run_before_exit(
        alloc,
        book.as_deref(),
        &mut reader,
        &mut writer,
        &mut store,
        &mut work,
    )?;
    Ok(())
}
