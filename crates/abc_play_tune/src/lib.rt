//! What each voice of a tune plays, when, and where it is in the tune. Its laws connect that to the score.
#![tactic(auto)]

mod entry;
mod joined;
pub mod laws;
mod play;
mod steps;
mod timed;

pub use abc_play_sections::PlayStep;
pub use entry::{EntryKind, PlayEntry, entries_of};
pub use play::play_along;
pub use timed::TimedStep;
