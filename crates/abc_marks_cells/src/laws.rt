//! Laws of the marks of cells. Each function has no body: its contract is the law.

ghost use Rattle.abc_marks_cells.specs.Laws.{AreKeysWithoutTies, NoneWithout};

/// A grace note, and a note beside an ornamented one, has the key of a note there that no tie reaches (ABC 2.1 section 4.2).
#[tactic(auto, using(crate::proofs::UntiedKeys::keys_without_ties))]
pub fn keys_without_ties()
    ensures { AreKeysWithoutTies }
{}

/// A cell that spells no marks has none.
#[tactic(auto, using(crate::proofs::Walks::none_without_marks))]
pub fn none_without_marks()
    ensures { NoneWithout }
{}
