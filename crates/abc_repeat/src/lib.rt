//! The play of a voice's section by its repeat bars and endings, and the order in which sections are played.
#![tactic(auto)]

mod count;
mod fault;
pub mod laws;
mod mark;
mod order;
mod order_play;
mod order_size;
mod pass;
mod play;
mod section;
mod size;
mod strain;

pub use fault::{OrderFault, RepeatFault};
pub use mark::Mark;
pub use order::{MOST_SECTIONS, Played, play_order};
pub use play::{MOST_PLACES, expand, expand_within};
