//! What the tests print of calls whose allocations fail one by one: `tests/failures/refused_calls` refuses those between `call` and
//! `done`, one in each run. After a refusal, what the call borrowed answers as before, and the same call is repeated and
//! succeeds. Between `silent` and `done` there is no allocation.

use std::rt::Runtime;

/// Prints that a call begins.
pub fn call(rt: &impl Runtime, name: &str) {
    let _ = println!(rt; "call {name}");
}

/// Prints that a call begins that does not allocate.
pub fn silent(rt: &impl Runtime, name: &str) {
    let _ = println!(rt; "silent {name}");
}

/// Prints that an allocation failed and the call is repeated.
pub fn again(rt: &impl Runtime) {
    let _ = println!(rt; "again");
}

/// Prints that the call has succeeded.
pub fn done(rt: &impl Runtime) {
    let _ = println!(rt; "done");
}

/// Ends the function of a call that may change what it borrows. If an allocation fails, it checks what the call borrowed,
/// and repeats the call on that.
#[macro_export]
macro_rules! retry {
    ($rt:expr, $call:expr, $is_as_before:expr, $is_right:expr) => {{
        let mut is_as_before = true;
        if $call.is_err() {
            $crate::report::again($rt);
            is_as_before = $is_as_before;
            $call?;
        }
        $crate::report::done($rt);
        Ok(is_as_before && $is_right)
    }};
}
