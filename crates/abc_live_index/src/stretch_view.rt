//! A stretch of a text with the chains of its tunes.

use crate::output::Output;
use abc_book::Block;
use abc_fold::{Chain, Shared};
use abc_lines::GapList;
use abc_tune_compiler::Compiler;

/// Lines of a text that follow one another, and the chains of the tunes that lie among them.
#[derive(Drop)]
pub struct StretchView<'a, C: Compiler> {
    /// The bytes of each line.
    pub lines: &'a [&'a [u8]],
    /// How many lines of the text are before them.
    pub before: usize,
    /// The state after the file header's last cell, if there is a file header.
    pub header_state: Option<&'a C::State>,
    /// The places of the tunes in the text.
    pub places: &'a [Block],
    /// The chain of each tune.
    pub chains: &'a [Shared<Chain<C>>],
    /// How many cells each line has.
    pub counts: &'a [usize],
}

/// The outputs that the tunes of a stretch reuse: those of the old tunes, and which of them each tune reuses.
#[derive(Drop)]
pub struct ReusedOutputs<'a> {
    /// The old tune whose output each tune reuses, if any.
    pub reused_tunes: &'a [Option<usize>],
    /// The outputs of the old tunes.
    pub outputs: &'a GapList<Shared<Output>>,
}
