//! The layers of a voice: what its overlay marks put beside its first layer, with the rests that keep them in step.
#![tactic(auto)]

pub mod laws;
mod layer;
mod layer_state;
mod layer_step;
mod limit;
mod role;

pub use abc_text::Sequence;
pub use abc_time::Grains;
pub use layer::layer_steps;
pub use layer_step::LayerStep;
pub use limit::layers_fit;
pub use role::Role;
