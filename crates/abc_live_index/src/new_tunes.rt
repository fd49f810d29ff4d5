//! The new tunes and faults of an edited text.

use crate::Output;
use abc_fold::Shared;
use abc_lines::{ItemRange, Replacement};
use abc_tune_compiler::Fault;

/// Tunes and faults that replace old ones.
#[derive(Drop)]
pub struct NewTunes {
    /// The old tunes that are replaced.
    pub range: ItemRange,
    /// The outputs of the tunes that replace them.
    pub outputs: Vec<Shared<Output>>,
    /// The old lines whose faults are replaced, and how many lines replace them.
    pub lines: Replacement,
    /// The faults of the new lines, by the lines of the new text and in any order.
    pub faults: Vec<Fault>,
}
