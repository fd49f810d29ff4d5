//! The marks of a cell beside its items: one walk over its tokens gives both. First a line gives the marks that it spells, and then
//! the state of the voice at each place gives their keys, lengths and velocities.
#![tactic(auto)]

mod cell_walk;
mod grace_length;
mod grace_notes;
mod hearing;
mod keys;
pub mod laws;
mod mark_list;
mod neighbour;
mod reading;
mod token_text;
mod waiting_mark;
mod waiting_marks;
mod written_mark;
mod written_marks;

pub use cell_walk::marked_cell;
pub use hearing::heard_cell;
pub use mark_list::MarkList;
pub use reading::marks_written;
pub use waiting_mark::{WaitingKind, WaitingMark};
pub use written_mark::{PlacedMark, WrittenGrace, WrittenMark};
pub use written_marks::WrittenMarks;
