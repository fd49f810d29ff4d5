//! Folds that can be resumed at any cell, chains that store the states and items of their cells, and counters of an
//! edit's work: lines scanned, steps folded, tunes built. The promise that a small edit of a chain takes few steps is a
//! contract on these counters.
#![tactic(auto)]

mod chain;
mod counts;
mod fold;
mod piece;
mod pieces;
mod work;

pub use abc_text::Shared;
pub use chain::{Chain, ChainPatch};
pub use counts::Counts;
pub use fold::Fold;
pub use piece::Piece;
pub use pieces::Pieces;
pub use work::Work;
