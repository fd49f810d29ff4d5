//! Code over the public calls of a session and a publisher, and worked examples by the definitions alone. Expected values
//! are worked by hand from the toy's definitions and from `docs/protocol.md`. The tests of all these are in `tests`, so that
//! nothing here is proved again with them.
#![tactic(auto)]

pub mod definitions;
pub mod held_jobs;
pub mod marked_toy;
pub mod memo;
pub mod toy;
