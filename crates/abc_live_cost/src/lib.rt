//! The cost of an edit: which cells of the edited text are fresh, and which of its tunes are touched. Laws connect both
//! definitions to the rows that code walks along.
#![tactic(auto)]

pub mod laws;
