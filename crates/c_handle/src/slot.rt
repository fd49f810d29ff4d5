//! The slot of a session, which is a struct of the caller: `abc_live_session` in the header of C, which has its size and alignment.

ghost use Rattle.std.specs.Prelude.{◌≡◌, IfSome, IsSome, None, Some, option_map};

use crate::handle::Handle;
use crate::open_session::OpenSession;
use std::alloc::Global;
use std::mem::replace;

/// The state of a slot that holds a session. A slot of zeros holds none.
pub const OPEN: u8 = 1;

/// A place for a session. In C it is a pointer and a byte.
#[repr(C)]
#[derive(Drop)]
pub struct SessionSlot {
    pub handle: Handle,
    pub state: u8,
    ghost full: { state ≡ 1 → IsSome handle.held },
}

impl SessionSlot {
    ghost use Rattle.c_handle.specs.Slot.{session_in};

    /// Takes the session out of the slot, if there is one.
    pub fn take(&mut self, alloc: Global) -> Option<Box<OpenSession>>
        ensures value { option_map (λ session. session.value) result ≡ session_in self.old }
        ensures empty { session_in self.new ≡ None }
        ensures zeros { IfSome result (λ _. self.new.state ≡ 0) }
        ensures unchanged { result ≡ None → self.new ≡ self.old }
    {
        if self.state != OPEN {
            return None;
        }
        self.state = 0;
        let handle = replace(&mut self.handle, Handle::empty(alloc));
        Some(handle.into_box())
    }

    /// Puts a session into an empty slot.
    pub fn fill(&mut self, session: Box<OpenSession>)
        requires { session_in self.old ≡ None }
        ensures value { session_in self.new ≡ Some session.value }
    {
        self.handle = Handle::of(session);
        self.state = OPEN;
    }
}

/// Copies from the session of a slot, and puts the session back. A slot without a session is misused.
macro_rules! read_session {
    ($slot:expr, $alloc:expr, $session:ident => $copy:expr) => {
        match $slot.take($alloc) {
            Some($session) => {
                let answer = $copy;
                $slot.fill($session);
                answer
            }
            None => $crate::copying::misuse(),
        }
    };
}

/// Counts in the session of a slot, and puts the session back. A slot without a session is misused, and the count is 0.
macro_rules! count_in_session {
    ($slot:expr, $alloc:expr, $count:expr, $session:ident => $number:expr) => {
        match $slot.take($alloc) {
            Some($session) => {
                *$count = $number;
                $slot.fill($session);
                $crate::codes::CODE_OK
            }
            None => {
                *$count = 0;
                $crate::codes::CODE_MISUSED
            }
        }
    };
}

pub(crate) use count_in_session;
pub(crate) use read_session;
