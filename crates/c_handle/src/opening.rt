//! Calls that open and close a session.

ghost use Rattle.std.specs.Prelude.{◌≡◌, ◌≢◌, IfOk};
ghost use Rattle.c_handle.specs.Slot.{session_in};
ghost use Rattle.c_handle.specs.Sessions.{IsClosed, IsFresh, IsOpened};

use crate::codes::{CODE_MISUSED, CODE_OK, CODE_OUT_OF_MEMORY};
use crate::open_session::OpenSession;
use crate::slot::{OPEN, SessionSlot};
use abc_live::{Report, Session};
use std::alloc::{AllocError, Global};

/// Returns a session without lines.
fn new_session(alloc: Global) -> Result<Box<OpenSession>, AllocError>
    ensures value { IfOk result (λ session. IsFresh session.value) }
{
    let session = Session::new(alloc)?;
    let report = Report {
        written: Vec::new(alloc),
        removed: Vec::new(alloc),
    };
    Ok(Box::new(alloc, OpenSession { session, report })?)
}

/// Opens a session without lines in a slot that holds none, and returns `CODE_OK`; or `CODE_MISUSED` if the slot holds one,
/// or `CODE_OUT_OF_MEMORY`.
pub fn open_slot(alloc: Global, slot: &mut SessionSlot) -> u32
    ensures value { IsOpened (session_in slot.old) result (session_in slot.new) }
    ensures unchanged { result ≢ CODE_OK → slot.new ≡ slot.old }
{
    if slot.state == OPEN {
        return CODE_MISUSED;
    }
    match new_session(alloc) {
        Ok(session) => {
            slot.fill(session);
            CODE_OK
        }
        Err(_) => CODE_OUT_OF_MEMORY,
    }
}

/// Closes the session of a slot, frees its memory, and returns `CODE_OK`; or `CODE_MISUSED` if the slot holds none.
pub fn close_slot(alloc: Global, slot: &mut SessionSlot) -> u32
    ensures value { IsClosed (session_in slot.old) result (session_in slot.new) }
    ensures zeros { result ≡ CODE_OK → slot.new.state ≡ 0 }
    ensures unchanged { result ≢ CODE_OK → slot.new ≡ slot.old }
{
    match slot.take(alloc) {
        Some(_session) => CODE_OK,
        None => CODE_MISUSED,
    }
}
