//! Trials of calls that allocate.

use crate::report::again;
use std::alloc::{AllocError, Global};
use std::rt::Runtime;

/// A call that is tried by itself.
pub trait Trial {
    /// Makes the call, from nothing. Returns whether the result is the one worked out by hand.
    fn attempt<R: Runtime>(&self, rt: &R, alloc: Global) -> Result<bool, AllocError>;
}

/// Makes a call, and once more from nothing if an allocation fails. Returns whether the last result, and what the call
/// borrowed, are those worked out by hand.
pub fn is_right<R: Runtime, C: Trial>(rt: &R, alloc: Global, call: &C) -> bool {
    match call.attempt(rt, alloc) {
        Ok(is_right) => is_right,
        Err(_) => {
            again(rt);
            matches!(call.attempt(rt, alloc), Ok(true))
        }
    }
}
