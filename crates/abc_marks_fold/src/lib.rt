//! The fold over the cells of a performed tune: the items of the written reading and the marks beside them, without text blocks.
#![tactic(auto)]

mod block_name;
pub mod laws;
mod line_cells;
mod marked_step;
mod performed_cell;
mod performed_fold;
mod performed_state;

pub use block_name::BlockName;
pub use line_cells::{performed_cells_of, performed_class_of};
pub use performed_cell::PerformedCell;
pub use performed_fold::PerformedFold;
pub use performed_state::PerformedState;
