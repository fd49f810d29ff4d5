//! Laws of layers. The function has no body: its contract is the law.

ghost use Rattle.abc_perform_layers.specs.KeepStep.{LayersKeepStep, LayersKeepBounds};

/// In every stretch the voice of a layer is as long as the first layer, or as what is written of the layer if that is longer.
/// Its bar lines and ending marks are those of the voice (ABC 2.1 section 7.4).
#[tactic(auto, using(crate::proofs::KeptStep::keep_step, crate::proofs::KeptStep::keep_bounds))]
pub fn layers_keep_step()
    ensures step { LayersKeepStep }
    ensures bounds { LayersKeepBounds }
{}
