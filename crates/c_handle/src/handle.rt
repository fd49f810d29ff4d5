//! The handle, which owns a box whose pointer C can hold.

ghost use Rattle.std.specs.Prelude.{◌≡◌, IsSome, None, Option, Some};
ghost use Rattle.c_handle.specs.Handle.{handle_owns, held_coded};
ghost use Rattle.c_handle.specs.declared.open_session.OpenSession.{OpenSession};

use crate::box_parts::BoxParts;
use crate::open_session::OpenSession;
use std::alloc::Global;
use std::marker::Model;

/// A box in which a session is, or none. Contracts see what is in the box.
#[repr(C)]
#[derive(Drop)]
pub struct Handle {
    at: *mut u8,
    alloc: Global,
    pub ghost held: { Option OpenSession } by { held_coded },
}

impl Model for Handle {
    ghost also_owns = { λ h. handle_owns h.alloc h.at h.held };
}

impl Handle {
    /// Returns a handle without a session.
    pub fn empty(alloc: Global) -> Handle
        ensures value { result.held ≡ None }
    {
        Handle {
            at: std::ptr::null_mut(),
            alloc,
        }
    }

    /// Returns a handle that owns a session.
    pub fn of(session: Box<OpenSession>) -> Handle
        ensures value { result.held ≡ Some session.value }
    {
        Handle::of_parts(BoxParts::of(session))
    }

    /// Returns the box of a handle that owns one.
    pub fn into_box(self) -> Box<OpenSession>
        requires { IsSome self.held }
        ensures value { Some result.value ≡ self.held }
    {
        self.into_parts().into_box()
    }

    fn of_parts(parts: BoxParts<OpenSession, Global>) -> Handle
        ensures value { result.held ≡ Some parts.value }
    {
        let BoxParts { ptr, alloc } = parts;
        Handle {
            at: ptr as *mut u8,
            alloc,
        }
    }

    fn into_parts(self) -> BoxParts<OpenSession, Global>
        requires { IsSome self.held }
        ensures value { Some result.value ≡ self.held }
    {
        let Handle { at, alloc } = self;
        BoxParts {
            ptr: at as *mut OpenSession,
            alloc,
        }
    }
}
