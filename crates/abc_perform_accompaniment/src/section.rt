//! The accompaniment of a section.

ghost use Rattle.std.specs.Prelude.{◌≡◌, ◌++◌, All, IfOk, OnOk, map, true};
ghost use Rattle.abc_perform_layers.specs.Limit.{fits_from};
ghost use Rattle.abc_perform_accompaniment.specs.Section.{items_at, section_items, setting_after, state_after};
ghost use Rattle.abc_perform_accompaniment.specs.Stretch.{IsStretch, step_fits};
ghost use Rattle.abc_perform_accompaniment.specs.VoiceSetting.{IsVoiceSetting};
ghost use Rattle.abc_perform_accompaniment.specs.VoiceStep.{IsVoiceStep, role_of};

use crate::stretch::StretchState;
use crate::stretch_items::{made_item, put_stretch_items};
use crate::voice_setting::VoiceSetting;
use crate::voice_step::VoiceStep;
use abc_bars_items::Item;
use abc_perform_harmony::Part;
use abc_perform_item::Performance;
use std::alloc::{AllocError, Global};

/// Appends what a voice of the accompaniment plays at a step: at a bar line or ending its stretch, and then the same mark.
fn put_at(
    alloc: Global,
    performance: &mut Performance,
    part: Part,
    state: &StretchState,
    step: &VoiceStep,
) -> Result<(), AllocError>
    requires { IsStretch state.now }
    ensures { OnOk result (performance.new ≡ performance.old ++ items_at part state.now step.now) }
{
    match step {
        VoiceStep::Bar(line) => {
            put_stretch_items(alloc, performance, part, state)?;
            performance.push(made_item(Item::Bar(*line)))
        }
        VoiceStep::Ending(passes) => {
            put_stretch_items(alloc, performance, part, state)?;
            performance.push(made_item(Item::Ending(*passes)))
        }
        _ => Ok(()),
    }
}

/// Goes past a step of the accompanied voice.
fn pass(alloc: Global, state: &mut StretchState, step: &VoiceStep) -> Result<(), AllocError>
    requires state { IsStretch state.old }
    requires step { IsVoiceStep step.now }
    requires room { step_fits state.old step.now ≡ true }
    ensures value { OnOk result (state.new ≡ state_after state.old step.now) }
    ensures range { OnOk result (IsStretch state.new) }
{
    match step {
        VoiceStep::Bar(line) => {
            let first = state.opens_pickup(*line);
            state.begin_next(alloc, first);
            Ok(())
        }
        VoiceStep::Ending(_) => {
            state.begin_next(alloc, false);
            Ok(())
        }
        _ => state.add_step(step),
    }
}

/// Appends what a voice of the accompaniment plays in a section of the accompanied voice (ABC 2.1 section 4.18), whose steps
/// are in order of text, and returns what holds after the section. `setting` is what holds before it. In each stretch the
/// voice is as long as the first layer of the accompanied one, and its bar lines and endings are the same. No layer of a stretch
/// is longer than 1,024 whole notes. It returns an error if an allocation fails.
#[tactic(auto, using(crate::proofs::Fits::section_fits))]
pub fn accompany_section(
    alloc: Global,
    performance: &mut Performance,
    part: Part,
    setting: &VoiceSetting,
    steps: &[VoiceStep],
) -> Result<VoiceSetting, AllocError>
    requires setting { IsVoiceSetting setting.now }
    requires steps { All IsVoiceStep steps.now }
    requires room { fits_from 0 (map role_of steps.now) ≡ true }
    ensures items { OnOk result (performance.new ≡ performance.old ++ section_items part setting.now steps.now) }
    ensures setting_after { IfOk result (λ after. after ≡ setting_after setting.now steps.now) }
    ensures range { IfOk result IsVoiceSetting }
{
    let mut state = StretchState::section_opening(alloc, setting)?;
    for step in steps {
        put_at(alloc, performance, part, &state, step)?;
        pass(alloc, &mut state, step)?;
    }
    put_stretch_items(alloc, performance, part, &state)?;
    Ok(state.into_setting())
}
