//! How far a stretch has come, in its first layer and in another one.

ghost use Rattle.std.specs.Prelude.{◌≡◌, ◌++◌, ◌+◌, ◌^◌, ◌<◌, ◌≤◌, All, OnOk};
ghost use Rattle.abc_time.specs.Grains.{grains_of_the_longest_length};
ghost use Rattle.abc_perform_layers.specs.LayerStep.{IsLayerStep};
ghost use Rattle.abc_perform_layers.specs.LayerState.{IsState, HasRoom, emitted, fill, longer, next_layer, opening, state_after, with_time};

use crate::layer_step::LayerStep;
use crate::role::Role;
use abc_text::Sequence;
use abc_time::Grains;
use std::alloc::AllocError;

/// How long a layer of a stretch is, and whether it has a note, chord or rest.
#[derive(Clone, Copy)]
pub struct LayerTime {
    pub time: Grains,
    pub some: bool,
}

/// How far a stretch has come, for one of its layers.
#[derive(Clone, Copy)]
pub struct LayerState {
    /// The number of the layer of the next step.
    pub at: usize,
    /// The layer of the next step so far.
    pub current: LayerTime,
    /// The first layer so far.
    pub base: LayerTime,
    /// The layer in question so far.
    pub own: LayerTime,
}

/// A layer without a note, chord or rest.
const NO_TIME: LayerTime = LayerTime {
    time: Grains(0),
    some: false,
};

/// Returns the state at the beginning of a stretch.
pub(crate) fn opening() -> LayerState
    ensures value { result ≡ opening }
    ensures range { IsState result }
{
    LayerState {
        at: 0,
        current: NO_TIME,
        base: NO_TIME,
        own: NO_TIME,
    }
}

/// Returns the state after an overlay mark.
fn next_layer(state: LayerState) -> LayerState
    requires state { IsState state }
    requires room { state.at + 1 < 2 ^ 64 }
    ensures value { result ≡ next_layer state }
    ensures range { IsState result }
{
    LayerState {
        at: state.at + 1,
        current: NO_TIME,
        base: state.base,
        own: state.own,
    }
}

/// Returns how long the current layer is with one more note, chord or rest.
#[tactic(auto, unfolding(abc_time::specs::Grains::grains_of_a_whole_note, abc_time::specs::Grains::grains_of_the_longest_length))]
fn longer(current: LayerTime, length: Grains) -> LayerTime
    requires { current.time.0 + length.0 ≤ grains_of_the_longest_length }
    ensures { result ≡ longer current length }
{
    LayerTime {
        time: Grains(current.time.0 + length.0),
        some: true,
    }
}

/// Returns the state after a note, chord or rest.
fn with_time(layer: usize, state: LayerState, length: Grains) -> LayerState
    requires state { IsState state }
    requires room { HasRoom state (Role.Time length) }
    ensures value { result ≡ with_time layer state length }
    ensures range { IsState result }
{
    let current = longer(state.current, length);
    LayerState {
        at: state.at,
        current,
        base: if state.at == 0 { current } else { state.base },
        own: if state.at == layer {
            current
        } else {
            state.own
        },
    }
}

/// Appends a rest for what a layer lacks of its stretch, to the length of the first one.
pub(crate) fn put_fill(steps: &mut Sequence<LayerStep>, state: LayerState) -> Result<(), AllocError>
    requires steps { All IsLayerStep steps.old }
    requires state { IsState state }
    ensures value { OnOk result (steps.new ≡ steps.old ++ fill state) }
    ensures range { OnOk result (All IsLayerStep steps.new) }
{
    if state.own.time.0 < state.base.time.0 {
        steps.push(LayerStep::Fill {
            length: Grains(state.base.time.0 - state.own.time.0),
        })?;
    } else if state.base.some && !state.own.some {
        steps.push(LayerStep::Fill { length: Grains(0) })?;
    }
    Ok(())
}

/// Appends what the voice of a layer has at a step.
pub(crate) fn put_step(
    steps: &mut Sequence<LayerStep>,
    layer: usize,
    index: usize,
    state: LayerState,
    role: Role,
) -> Result<(), AllocError>
    requires steps { All IsLayerStep steps.old }
    requires state { IsState state }
    requires room { HasRoom state role }
    ensures value { OnOk result (steps.new ≡ steps.old ++ emitted layer index state role) }
    ensures range { OnOk result (All IsLayerStep steps.new) }
{
    match role {
        Role::Time(length) => {
            if state.at == layer {
                steps.push(LayerStep::Written { index, length })?;
            }
        }
        Role::Bound => {
            put_fill(steps, state)?;
            steps.push(LayerStep::Bound { index })?;
        }
        Role::Program => steps.push(LayerStep::Program { index })?,
        Role::Overlay | Role::Other => {}
    }
    Ok(())
}

/// Returns the state after a step.
pub(crate) fn state_after(layer: usize, state: LayerState, role: Role) -> LayerState
    requires state { IsState state }
    requires room { HasRoom state role }
    ensures value { result ≡ state_after layer state role }
    ensures range { IsState result }
{
    match role {
        Role::Time(length) => with_time(layer, state, length),
        Role::Bound => opening(),
        Role::Overlay => next_layer(state),
        Role::Program | Role::Other => state,
    }
}
