//! The play of a number.

use abc_fold::Work;
use abc_live::{Edit, Session};
use abc_play::{Play, play_of_number};
use std::alloc::{AllocError, Global};
use std::rt::Runtime;
use tests_memory_layers::lines_of;
use tests_memory_layers::report::{call, done};

/// Returns a session with a tune of two voices, which has a chord, a tie, a repeat, a rest and two parts.
fn opened<R: Runtime>(rt: &R, alloc: Global) -> Result<Session, AllocError> {
    let mut work = Work::mint(rt);
    let mut session = Session::new(alloc)?;
    let lines: [&[u8]; 8] = [
        b"X:1",
        b"P:AB",
        b"K:C",
        b"P:A",
        b"|:[CE]-|C:|",
        b"V:2",
        b"z",
        b"P:B",
    ];
    let lines = lines_of(alloc, &lines)?;
    match session.apply(&Edit::Insert { at: 1, lines }, &mut work) {
        Ok(_) => Ok(session),
        Err(_) => Err(AllocError),
    }
}

/// Returns the play of the tune.
fn play(alloc: Global, session: &Session) -> Result<Play, AllocError> {
    match play_of_number(alloc, session, 1) {
        Ok(play) => Ok(play),
        Err(_) => Err(AllocError),
    }
}

/// The play of a tune of two voices.
pub fn played_number<R: Runtime>(rt: &R, alloc: Global) -> Result<bool, AllocError> {
    let session = opened(rt, alloc)?;
    call(rt, "play_of_number");
    let play = play(alloc, &session)?;
    done(rt);
    Ok(play.tracks.len() == 2)
}
