//! The play of a number of a session: what each voice plays, when, and where it is in the text.
#![tactic(auto)]

mod cells;
mod entry;
pub mod laws;
mod order;
mod place;
mod play;
mod play_error;
mod tune;

pub use abc_play_tune::EntryKind;
pub use abc_text::Sequence;
pub use entry::PlayedEntry;
pub use place::Place;
pub use play::{Play, play_of_number};
pub use play_error::PlayError;
