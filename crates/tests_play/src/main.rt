//! Prints the plays of numbers of texts. Its input is a line `play NUMBER LINES` and the `LINES` lines of a text, again and again.
//! After the entries of a play, one a line, comes `end`.
#![tactic(auto)]

mod request;

use abc_fold::Work;
use abc_live_session::{Edit, EditError, LiveSession};
use abc_play::{EntryKind, Place, Play, PlayError, PlayedEntry, play_of_number};
use abc_tune::Abc;
use request::Request;
use std::io::{self, BufRead, BufReader, ErrorKind};
use std::process::ExitCode;
use std::rt::Runtime;

fn main(rt: HostRuntime) -> ExitCode {
    match print_plays(&rt) {
        Ok(()) => ExitCode::SUCCESS,
        Err(error) => {
            let _ = eprintln!(rt; "{error}");
            ExitCode::from(1)
        }
    }
}

/// Prints the plays that the input asks for.
fn print_plays<R: Runtime + AllocGlobal>(rt: &R) -> io::Result<()> {
    let alloc = rt.alloc();
    let mut pending: Option<(Request, Vec<Vec<u8>>)> = None;
    for line in BufReader::new(alloc, rt.reader())?.split(alloc, b'\n') {
        let line = line?;
        let (request, lines) = match pending.take() {
            Some((request, mut lines)) => {
                lines.push(line)?;
                (request, lines)
            }
            None => (Request::of(&line), Vec::new(alloc)),
        };
        if lines.len() >= request.lines as usize {
            print_play(rt, lines, request.number)?;
        } else {
            pending = Some((request, lines));
        }
    }
    Ok(())
}

/// Prints the play of a number of a text.
fn print_play<R: Runtime + AllocGlobal>(
    rt: &R,
    lines: Vec<Vec<u8>>,
    number: u32,
) -> io::Result<()> {
    let mut work = Work::mint(rt);
    let mut session: LiveSession<Abc> = LiveSession::new(rt.alloc())?;
    match session.apply(&Edit::Insert { at: 1, lines }, &mut work) {
        Ok(_) => {}
        Err(EditError::OutOfMemory) => return Err(io::Error::from(ErrorKind::OutOfMemory)),
        Err(error) => println!(rt; "{error}")?,
    }
    match play_of_number(rt.alloc(), &session, number) {
        Ok(play) => print_tracks(rt, &play)?,
        Err(PlayError::OutOfMemory) => return Err(io::Error::from(ErrorKind::OutOfMemory)),
        Err(PlayError::NoSuchNumber) => println!(rt; "none")?,
        Err(PlayError::TooLong) => println!(rt; "TooLong")?,
    }
    println!(rt; "end")
}

/// Prints the tracks of a play.
fn print_tracks<R: Runtime + AllocGlobal>(rt: &R, play: &Play) -> io::Result<()> {
    for (track, entries) in play.tracks.as_slice().iter().enumerate() {
        print_track(rt, track, entries.as_slice())?;
    }
    Ok(())
}

/// Prints the entries of a track.
fn print_track<R: Runtime + AllocGlobal>(
    rt: &R,
    track: usize,
    entries: &[PlayedEntry],
) -> io::Result<()> {
    for entry in entries {
        print_entry(rt, track, entry)?;
    }
    Ok(())
}

/// Prints an entry of a track.
fn print_entry<R: Runtime + AllocGlobal>(
    rt: &R,
    track: usize,
    entry: &PlayedEntry,
) -> io::Result<()> {
    // Track 0 is the conductor's.
    let track = track.saturating_add(1);
    print!(rt; "{track} {} {} ", entry.on, entry.off)?;
    print_kind(rt, entry.kind)?;
    print_place(rt, entry.place)
}

/// Prints what an entry is.
fn print_kind<R: Runtime + AllocGlobal>(rt: &R, kind: EntryKind) -> io::Result<()> {
    match kind {
        EntryKind::Note {
            key,
            velocity,
            joined,
            tied,
            ..
        } => print_note(rt, key, velocity, bit(joined), bit(tied)),
        EntryKind::Rest => print!(rt; "rest - - 0 0 "),
        EntryKind::Bar => print!(rt; "bar - - 0 0 "),
    }
}

/// Returns 1 if something holds, else 0.
fn bit(holds: bool) -> u8 {
    if holds { 1 } else { 0 }
}

/// Prints a tone. `joined` and `tied` are 1 or 0.
fn print_note<R: Runtime + AllocGlobal>(
    rt: &R,
    key: Option<u8>,
    velocity: u8,
    joined: u8,
    tied: u8,
) -> io::Result<()> {
    match key {
        Some(key) => print!(rt; "note {key} {velocity} {joined} {tied} "),
        None => print!(rt; "note - - {joined} {tied} "),
    }
}

/// Prints where an entry is, at the end of its line.
fn print_place<R: Runtime + AllocGlobal>(rt: &R, place: Place) -> io::Result<()> {
    println!(rt; "{} {} {}", place.line, place.from, place.to)
}
