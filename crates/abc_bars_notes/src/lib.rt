//! The music of one voice: what its notes, chords and rests sound and how long, and what they leave.
#![tactic(auto)]

mod bar_rest;
mod broken;
mod chords;
pub mod laws;
mod lengths;
mod numbers;
mod pitch;
mod role;
mod sound;
mod time_tokens;

pub use bar_rest::bar_rest_of;
pub use broken::{BrokenFactors, Preceding, is_bad_mark, preceding_after};
pub use chords::ChordContext;
pub use pitch::key_of;
pub use role::{TokenRole, has_note, token_role};
pub use sound::{ChordBuilder, NoteContext};
pub use time_tokens::{NotePlace, play_chord, play_note, play_rest, play_steady_note};
