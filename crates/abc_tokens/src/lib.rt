//! The tokens of one line of a text, for editors and teaching tools: what an editor colours, byte by byte, with the parts of
//! chords and the comments.
#![tactic(auto)]

mod line_kinds;
mod line_token;
mod tokens;

pub use abc_fold::Work;
pub use abc_scan::{LineClass, class_of};
pub use line_token::{LineToken, LineTokenKind};
pub use tokens::line_tokens;
