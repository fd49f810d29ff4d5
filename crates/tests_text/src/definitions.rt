//! Worked examples by the definitions themselves: the value of each definition for an input, worked out by hand. A body
//! here does nothing; its contract is the example. Each module opens the sets of `Opened` that it needs.

pub mod bars;
pub mod blocks;
pub mod counters;
pub mod fields;
pub mod headers;
pub mod lengths;
pub mod orders;
pub mod repeats;
pub mod scanning;
pub mod texts;
pub mod voice_states;
