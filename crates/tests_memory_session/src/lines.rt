//! The lines of a text, and their tokens.

use abc_fold::Work;
use abc_lines::lines_of_text;
use abc_live::{Edit, LineToken, Session, TokensError};
use abc_tokens::line_tokens;
use std::alloc::{AllocError, Global};
use std::rt::Runtime;
use tests_memory_layers::lines_of;
use tests_memory_layers::report::{call, done};

/// Two lines.
pub fn lines_in_text(rt: &impl Runtime, alloc: Global) -> Result<bool, AllocError> {
    call(rt, "lines_of_text");
    let lines = lines_of_text(alloc, b"X:1\nK:C\n")?;
    done(rt);
    Ok(lines.len() == 2)
}

/// The tokens of a line by itself: a note, a blank and a rest.
pub fn tokens_of_line<R: Runtime>(rt: &R, alloc: Global) -> Result<bool, AllocError> {
    let mut work = Work::mint(rt);
    call(rt, "line_tokens");
    let tokens = line_tokens(alloc, true, b"C z", &mut work)?;
    done(rt);
    Ok(tokens.len() == 3)
}

/// Returns a session with a tune.
fn opened(alloc: Global, work: &mut Work) -> Result<Session, AllocError> {
    let mut session = Session::new(alloc)?;
    let lines = lines_of(alloc, &[b"X:1", b"K:C", b"C z"])?;
    match session.apply(&Edit::Insert { at: 1, lines }, work) {
        Ok(_) => Ok(session),
        Err(_) => Err(AllocError),
    }
}

/// Returns the tokens of the third line of a session.
fn tokens(session: &Session, work: &mut Work) -> Result<Vec<LineToken>, AllocError> {
    match session.tokens(3, work) {
        Ok(tokens) => Ok(tokens),
        Err(TokensError::NoSuchLine) => Err(AllocError),
        Err(TokensError::OutOfMemory) => Err(AllocError),
    }
}

/// The same tokens of a line of a session.
pub fn tokens_in_session<R: Runtime>(rt: &R, alloc: Global) -> Result<bool, AllocError> {
    let mut work = Work::mint(rt);
    let session = opened(alloc, &mut work)?;
    call(rt, "LiveSession::tokens");
    let tokens = tokens(&session, &mut work)?;
    done(rt);
    Ok(tokens.len() == 3)
}
