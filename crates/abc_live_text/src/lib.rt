//! A text with the folded chains of its file header and its tunes, kept from edit to edit.
#![tactic(auto)]

mod blocks;
mod chains;
mod item_splice;
mod kept_text;
mod lead;
mod new_parts;
mod new_places;
mod origin;
mod part_patches;
mod pieces;
mod refold;
mod refolded_tunes;
mod reused_tunes;
mod row;
mod stretch;

pub use chains::header_state;
pub use item_splice::ItemSplice;
pub use kept_text::{KeptText, TextPatch};
pub use row::{Row, read_rows};
pub use stretch::Stretch;
