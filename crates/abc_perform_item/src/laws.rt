//! Laws of performed items. The function has no body: its contract is the law.

ghost use Rattle.abc_perform_item.specs.Time.{GracesTakeHalf, PartsTakeTime, GraceItemsTakeShares, StepsTakeTime};

/// Grace notes take at most half of the note, chord or rest after them, and as items as much as their shares; the parts of an
/// ornament take as long as the note, and the steps of a spread chord as many times one (ABC 2.1 sections 4.12 and 4.14).
#[tactic(auto, using(crate::proofs::KeptTime::parts_take_time, crate::proofs::KeptTime::graces_take_shares, crate::proofs::KeptTime::steps_take_time))]
pub fn time_is_kept()
    ensures half { GracesTakeHalf }
    ensures shares { GraceItemsTakeShares }
    ensures parts { PartsTakeTime }
    ensures steps { StepsTakeTime }
{}
