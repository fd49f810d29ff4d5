//! Public calls of lists and of the layers from a line to the bytes of a file that allocate, each by itself.
//! `tests/failures/refused_calls` refuses each of their allocations in turn, and the call is then repeated: from nothing or, if it
//! may change what it borrows, on that. `CALLS` lists all of them; each is a function of its own, and a test of `tests` makes
//! them. Calls of whole tunes, chains and sessions are in `tests_memory_session`; calls that do not allocate are listed in
//! `docs/promises.md`.
#![tactic(auto)]

mod calls;
mod files;
mod items;
mod lists;
mod music;
mod notes;
mod plays;
pub mod report;
mod texts;
mod trial;
mod voices;

pub use calls::{CALLS, Call};
pub use files::FILE_OF_C;
pub use lists::lines_of;
pub use music::cell;
pub use trial::{Trial, is_right};
