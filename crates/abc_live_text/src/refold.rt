//! The inputs of the folds of an edited text.

use crate::origin::CarriedRow;
use abc_fold::{Chain, Fold, Shared};
use abc_lines::GapList;

/// The inputs of the folds of an edited text: its rows, the old chains that hold cells of theirs, and the state in which
/// each block begins.
#[derive(Drop)]
pub(crate) struct Refold<'a, F: Fold> {
    pub(crate) fold: &'a F,
    pub(crate) opening: &'a F::State,
    pub(crate) chains: &'a GapList<Shared<Chain<F>>>,
    pub(crate) rows: &'a [CarriedRow<F::Cell>],
}
