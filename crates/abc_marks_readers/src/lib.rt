//! The readers of what is heard besides notes when a tune is performed: chord names, decorations, directives, the edges of
//! text blocks and pipe keys.
#![tactic(auto)]

mod block;
mod chord_kind;
mod decoration;
mod directive;
mod harmony;
pub mod laws;
mod pattern;
mod pipe_key;

pub use block::{block_begun_by, block_ended_by};
pub use chord_kind::kind_named;
pub use decoration::{Decoration, decoration_of};
pub use directive::{is_playing_directive, playing_directive_of};
pub use harmony::{Harmony, harmony_of};
pub use pattern::{is_pattern, pattern_of};
pub use pipe_key::is_pipe_key;
