//! Where the notes, chords, rests and bar lines of a tune are: the token of a cell that gives each of its items.
#![tactic(auto)]

mod given;
mod givers;
mod tones;

pub use givers::givers_of;
pub use tones::tone_parts_of;
