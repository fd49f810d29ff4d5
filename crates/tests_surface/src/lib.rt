//! The public surface, as callers use it. Each module uses one crate: it names that crate's types, calls its functions, and
//! states contracts by its definitions. If a crate no longer re-exports one of them, this crate is refused.
#![tactic(auto)]

pub mod bar_laws;
pub mod bar_values;
pub mod bars;
pub mod blocks;
pub mod fields;
pub mod folds;
pub mod jobs;
pub mod lengths;
pub mod lines;
pub mod midi;
pub mod plays;
pub mod repeats;
pub mod runs;
pub mod scores;
pub mod session;
pub mod tokens;
pub mod tunes;
