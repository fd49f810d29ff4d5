//! The arguments of the program.

use clap::{Arg, Command};
use std::alloc::{AllocError, Global};

/// The version of the program, its clients and its packages. `scripts/build/version` reads this line.
const VERSION: &str = "1.0.0";

/// The commands in a line each, and their answers.
const COMMANDS: &str = "\
Commands, one on a line of standard input:
  insert L K     inserts the K lines that follow before line L; lines are counted from 1
  replace L M K  replaces the lines L to M by the K lines that follow
  delete L M     deletes the lines L to M
  build          writes the MIDI files of new and changed tunes into DIR, removes those of tunes that
                 have none any more, and lists them: 'written N.mid', 'removed N.mid', or
                 'failed N.mid' if the folder refuses it, and 'end'
  faults         lists the faults of the text: line, column and name of each, and 'end'
  titles         lists the tunes: number and title of each, and 'end'
  hex N          prints the MIDI file of tune N in hexadecimal, or 'none'
  quit           ends the run, as the end of the input does

An edit is answered 'ok written' and the tunes whose files are new or changed, then 'removed' and those
that have no file any more; or 'error' and why it was refused. A line that is no command is answered
'error command'. Answers are lines of standard output, each complete before the next command is read.";

/// Returns the description of the command line.
pub(crate) fn command<'a>(alloc: Global) -> Result<Command<'a>, AllocError> {
    let dir = Arg::new(alloc, "dir")
        .long("dir")
        .value_name("DIR")
        .required(true)
        .help("The folder for the MIDI files, which must exist; tune number N has the file N.mid");
    let book = Arg::new(alloc, "book").value_name("BOOK").help(
        "A file of tunes; its lines are put before line 1, and answered as an edit",
    );
    Command::new(alloc, "abc2midi_live")
        .bin_name("abc2midi_live")?
        .version(VERSION)
        .about("Compiles tunes in ABC notation to MIDI files while they are edited.")
        .after_help(COMMANDS)
        .arg(dir)?
        .arg(book)
}
