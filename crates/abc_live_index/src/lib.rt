//! The index of a text that is edited: the output of each tune, the file of each reference number, the titles and the
//! faults. An output comes from the chain of its tune or from a memo. An edit changes the index by differences.
#![tactic(auto)]

mod faults;
mod kept_book;
mod key;
pub mod laws;
mod new_tunes;
mod output;
mod outputs;
mod owners;
mod report;
mod stretch_faults;
mod stretch_view;
mod titles;
mod tune_change;
mod tune_faults;

pub use kept_book::{BookPatch, KeptBook};
pub use new_tunes::NewTunes;
pub use output::Output;
pub use outputs::outputs_of;
pub use stretch_faults::{put_cell_faults, put_tune_faults};
pub use stretch_view::{ReusedOutputs, StretchView};
