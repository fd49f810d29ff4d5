//! The blocks of an ABC text by the classes of its lines: the file header, the tunes, and free text.
#![tactic(auto)]

mod block;
pub mod laws;
mod pass;

pub use abc_scan::LineClass;
pub use block::{Block, BlockKind};
pub use pass::blocks;
