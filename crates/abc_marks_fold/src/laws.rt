//! Laws of the performed reading. Each function has no body: its contract is the law.

ghost use Rattle.abc_marks_fold.specs.BaseHalf.{HasBaseHalf};

/// The items, the faults and the states of the performed reading are those of the written reading along the cells outside text
/// blocks, as they are read: `&` has no effect, and keys of bagpipe music are read as `D`.
#[tactic(auto, using(crate::proofs::BaseHalves::has_base_half))]
pub fn base_half()
    ensures { HasBaseHalf }
{}
