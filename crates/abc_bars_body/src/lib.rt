//! What holds for each voice in the body of a tune, and what a cell gives there and leaves.
#![tactic(auto)]

mod body;
mod body_copy;
mod body_fields;
mod body_opening;
mod cell;
mod entry;
mod room;
mod same;

pub use body::Body;
pub use body_copy::BodyCopy;
pub use body_opening::body_from;
pub use cell::{CellResult, cell_result};
pub use entry::Entry;
