//! The voice of a layer.

ghost use Rattle.std.specs.Prelude.{◌≡◌, All, IfOk, true};
ghost use Rattle.abc_perform_layers.specs.Layer.{layer_steps};
ghost use Rattle.abc_perform_layers.specs.LayerStep.{IsLayerStep};
ghost use Rattle.abc_perform_layers.specs.Limit.{fits_from};

use crate::layer_state::{opening, put_fill, put_step, state_after};
use crate::layer_step::LayerStep;
use crate::role::Role;
use abc_text::Sequence;
use std::alloc::{AllocError, Global};

/// Returns what the voice of a layer plays in a section (ABC 2.1 section 7.4): in each stretch what is written of the layer, and
/// a rest for what that lacks to the length of the first layer, whose number is 0. It returns an error if an allocation fails.
pub fn layer_steps(
    alloc: Global,
    layer: usize,
    roles: &[Role],
) -> Result<Sequence<LayerStep>, AllocError>
    requires { fits_from 0 roles.now ≡ true }
    ensures value { IfOk result (λ steps. steps ≡ layer_steps layer roles.now) }
    ensures range { IfOk result (λ steps. All IsLayerStep steps) }
{
    let mut steps = Sequence::new(alloc);
    let mut state = opening();
    for (index, role) in roles.iter().enumerate() {
        put_step(&mut steps, layer, index, state, *role)?;
        state = state_after(layer, state, *role);
    }
    put_fill(&mut steps, state)?;
    Ok(steps)
}
