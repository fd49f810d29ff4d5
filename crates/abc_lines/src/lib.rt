//! Lists with a gap, and the lines of a tune book's text. A run of items is replaced in two steps: the first allocates and
//! changes nothing, the second changes the list and allocates nothing.
#![tactic(auto)]

mod block;
mod edit_error;
mod gap_list;
mod gap_row;
mod item_range;
mod limits;
mod line;
mod line_buffer;
mod places;
mod splice_patch;
mod text_lines;

pub use edit_error::EditError;
pub use gap_list::GapList;
pub use item_range::{ItemRange, Replacement};
pub use limits::{LONGEST_LINE, MOST_LINES, limit_error};
pub use line_buffer::{LineBuffer, LinePatch};
pub use splice_patch::SplicePatch;
pub use text_lines::lines_of_text;
