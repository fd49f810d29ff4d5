//! Worked examples by the definitions themselves. A body here does nothing; its contract is the example. Each module
//! names the definitions, or the sets of `Opened`, that it unfolds.

pub mod answers;
pub mod books;
pub mod commands;
pub mod counting;
pub mod edits;
