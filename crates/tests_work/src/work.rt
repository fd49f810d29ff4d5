//! Prints the work of each edit. Reads the commands of the program from standard input, applies the edits among them to a
//! session, and prints a line `work S F B` for each: the scanned lines, the folded steps and the built tunes. A refused edit
//! costs nothing.

ghost use Rattle.std.specs.Prelude.{◌≡◌, [], length, nat_le, IfOk};
ghost use Rattle.abc2midi_live.specs.Command.{command_of, line_count};
ghost use Rattle.tests_work.specs.Work.{HasNextLine, edit_of};

use abc_fold::Work;
use abc_live::{Edit, EditError, Session};
use abc2midi_live::Command;
use std::alloc::Global;
use std::io::{self, BufRead, BufReader, ErrorKind};
use std::rt::Runtime;

/// A command, and the lines of it that were read so far.
#[derive(Drop)]
struct PartialCommand {
    command: Command,
    lines: Vec<Vec<u8>>,
}

impl PartialCommand {
    /// Returns the command that a line begins.
    fn new(alloc: Global, line: &[u8]) -> PartialCommand
        ensures command { result.command ≡ command_of line.now }
        ensures lines { result.lines.items ≡ [] }
    {
        PartialCommand {
            command: Command::of(line),
            lines: Vec::new(alloc),
        }
    }

    /// Whether all of its lines were read.
    fn is_whole(&self) -> bool
        ensures { result ≡ nat_le (line_count self.now.command) (length self.now.lines.items) }
    {
        self.lines.len() >= self.command.line_count()
    }

    /// Returns its edit, if it is one.
    fn edit(self) -> Option<Edit>
        ensures { result ≡ edit_of self.command self.lines }
    {
        let lines = self.lines;
        match self.command {
            Command::Insert { at, .. } => Some(Edit::Insert { at, lines }),
            Command::Replace { from, to, .. } => Some(Edit::Replace { from, to, lines }),
            Command::Delete { from, to } => Some(Edit::Delete { from, to }),
            _ => None,
        }
    }
}

/// Prints the work of each edit of the input, up to `quit`.
pub(crate) fn print_work<R: Runtime + AllocGlobal>(rt: &R) -> io::Result<()> {
    let mut session = Session::new(rt.alloc())?;
    listen(rt, &mut session)
}

/// Prints the work of each edit of the input on this session.
fn listen<R: Runtime + AllocGlobal>(rt: &R, session: &mut Session) -> io::Result<()> {
    let alloc = rt.alloc();
    let mut pending = None;
    for line in BufReader::new(alloc, rt.reader())?.split(alloc, b'\n') {
        let next = with_line(alloc, pending.take(), line?)?;
        if matches!(next.command, Command::Quit) {
            return Ok(());
        }
        if next.is_whole() {
            carry_out(rt, session, next)?;
        } else {
            pending = Some(next);
        }
    }
    Ok(())
}

/// Returns a command with one more line.
fn with_line(
    alloc: Global,
    pending: Option<PartialCommand>,
    line: Vec<u8>,
) -> io::Result<PartialCommand>
    ensures { IfOk result (HasNextLine pending line.items) }
{
    match pending {
        Some(mut pending) => {
            pending.lines.push(line)?;
            Ok(pending)
        }
        None => Ok(PartialCommand::new(alloc, &line)),
    }
}

/// Applies a command that is an edit, and prints its work.
fn carry_out<R: Runtime + AllocGlobal>(
    rt: &R,
    session: &mut Session,
    pending: PartialCommand,
) -> io::Result<()> {
    let Some(edit) = pending.edit() else {
        return Ok(());
    };
    let mut work = Work::mint(rt);
    if let Err(EditError::OutOfMemory) = session.apply(&edit, &mut work) {
        return Err(io::Error::from(ErrorKind::OutOfMemory));
    }
    let (scanned, folded, built) = (work.scanned(), work.folded(), work.built());
    println!(rt; "work {scanned} {folded} {built}")
}
