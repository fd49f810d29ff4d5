//! Jobs that bring a directory of MIDI files up to date with a session: each for one number, any number of them under
//! way at once, ended in any order.
#![tactic(auto)]

mod job;
pub mod laws;
mod publisher;
mod slot;

pub use abc_live_session::LiveSession;
pub use abc_tune_compiler::Compiler;
pub use job::Job;
pub use publisher::Publisher;
