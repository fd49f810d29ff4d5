//! The score of a tune, from which a file is written, and its limits.
#![tactic(auto)]

mod limits;
mod score;

pub use limits::{LONGEST_TITLE, MOST_CHANGES, MOST_NOTES, MOST_PROGRAMS};
pub use score::{Change, ChangeKind, ProgramChange, Score, Sounding};
