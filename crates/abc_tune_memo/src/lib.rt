//! A memo of the tunes that were built last.
#![tactic(auto)]

mod answer;
mod key;
mod memo;

pub use key::{TuneKey, put_line};
pub use memo::TuneMemo;
