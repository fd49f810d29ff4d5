//! Calls that open and close a session, and the version.

ghost use Rattle.std.specs.Prelude.{◌≡◌, ◌≢◌};
ghost use Rattle.c_handle.specs.Sessions.{IsClosed, IsOpened};
ghost use Rattle.c_handle.specs.Slot.{session_in};
ghost use Rattle.c_handle.specs.declared.codes.TheConstants.{CODE_OK};

use c_handle::{SessionSlot, close_slot, open_slot};
use std::alloc::Global;

/// The version of the library: millions are the major number, thousands the minor one.
pub const VERSION: u32 = 1_000_000;

/// Returns the version of the library.
#[unsafe(no_mangle)]
pub extern "C" fn abc_live_version() -> u32
    ensures value { result ≡ 1000000 }
{
    VERSION
}

/// Opens a session without lines in a slot that holds none.
#[unsafe(no_mangle)]
pub extern "C" fn abc_live_open(alloc: Global, slot: &mut SessionSlot) -> u32
    ensures value { IsOpened (session_in slot.old) result (session_in slot.new) }
    ensures unchanged { result ≢ CODE_OK → slot.new ≡ slot.old }
{
    open_slot(alloc, slot)
}

/// Closes the session of a slot, and frees its memory.
#[unsafe(no_mangle)]
pub extern "C" fn abc_live_close(alloc: Global, slot: &mut SessionSlot) -> u32
    ensures value { IsClosed (session_in slot.old) result (session_in slot.new) }
    ensures zeros { result ≡ CODE_OK → slot.new.state ≡ 0 }
    ensures unchanged { result ≢ CODE_OK → slot.new ≡ slot.old }
{
    close_slot(alloc, slot)
}
