//! Laws of the accompaniment. The function has no body: its contract is the law.

ghost use Rattle.abc_perform_accompaniment.specs.KeepStep.{AccompanimentKeepsBounds, AccompanimentKeepsStep};

/// In every stretch both voices of the accompaniment are as long as the first layer of the voice that they accompany. Their bar
/// lines and endings are those of the voice.
#[tactic(auto, using(crate::proofs::KeptStep::keeps_step, crate::proofs::KeptBounds::keeps_bounds))]
pub fn accompaniment_keeps_step()
    ensures step { AccompanimentKeepsStep }
    ensures bounds { AccompanimentKeepsBounds }
{}
