//! The commands that an input line spells, and the lines of the answers.
#![tactic(auto)]

mod answer;
mod command;

pub use answer::{fault_list, hex_line, put_failed, put_stored, refusal, report_line, title_list};
pub use command::Command;
