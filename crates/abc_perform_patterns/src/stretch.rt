//! The steps of a pattern along a stretch of a voice.

ghost use Rattle.std.specs.Prelude.{◌≡◌, ◌+◌, ◌*◌, ◌-◌, ◌<◌, ◌≤◌, ◌++◌, All, IfOk, OnOk, min};
ghost use Rattle.abc_perform_note.specs.Length.{IsLengthOfANote};
ghost use Rattle.abc_perform_patterns.specs.Stretch.{IsSpanIn, bars_in, clipped, clipped_all, ending, ending_all, repeated_steps, some_step, stretch_steps};

use abc_perform_chords::StepSpan;
use abc_text::Sequence;
use abc_time::Grains;
use std::alloc::{AllocError, Global};

/// Appends a step, if it takes time.
fn put_some(steps: &mut Sequence<StepSpan>, step: StepSpan) -> Result<(), AllocError>
    ensures { OnOk result (steps.new ≡ steps.old ++ some_step step) }
{
    if step.from.0 < step.to.0 {
        steps.push(step)?;
    }
    Ok(())
}

/// Returns a step of a bar that begins at a moment, as far as the stretch goes.
#[tactic(auto, unfolding(abc_time::specs::Grains::grains_of_a_whole_note, abc_time::specs::Grains::grains_of_the_longest_length))]
fn clipped(begin: Grains, length: Grains, span: StepSpan) -> StepSpan
    requires begin { IsLengthOfANote begin.0 }
    requires from { IsLengthOfANote span.from.0 }
    requires to { IsLengthOfANote span.to.0 }
    ensures { result ≡ clipped begin.0 length.0 span }
{
    StepSpan {
        sound: span.sound,
        from: Grains(begin.0 + span.from.0),
        to: Grains((begin.0 + span.to.0).min(length.0)),
    }
}

/// Appends the steps of a bar that begins at a moment, as far as the stretch goes.
fn put_bar(
    steps: &mut Sequence<StepSpan>,
    begin: Grains,
    length: Grains,
    spans: &[StepSpan],
) -> Result<(), AllocError>
    requires begin { IsLengthOfANote begin.0 }
    requires spans { All IsSpanIn spans.now }
    ensures { OnOk result (steps.new ≡ steps.old ++ clipped_all begin.0 length.0 spans.now) }
{
    for span in spans {
        put_some(steps, clipped(begin, length, *span))?;
    }
    Ok(())
}

/// Returns a step of a bar without its first part.
fn ending(lack: Grains, span: StepSpan) -> StepSpan
    ensures { result ≡ ending lack.0 span }
{
    StepSpan {
        sound: span.sound,
        from: Grains(span.from.0.saturating_sub(lack.0)),
        to: Grains(span.to.0.saturating_sub(lack.0)),
    }
}

/// Appends the steps of the end of a bar that lacks its first part.
fn put_ending(
    steps: &mut Sequence<StepSpan>,
    lack: Grains,
    spans: &[StepSpan],
) -> Result<(), AllocError>
    ensures { OnOk result (steps.new ≡ steps.old ++ ending_all lack.0 spans.now) }
{
    for span in spans {
        put_some(steps, ending(lack, *span))?;
    }
    Ok(())
}

/// Returns how many bars a stretch begins.
#[tactic(auto, unfolding(abc_time::specs::Grains::grains_of_a_whole_note, abc_time::specs::Grains::grains_of_the_longest_length))]
fn bars_in(length: Grains, bar: Grains) -> u64
    requires length { IsLengthOfANote length.0 }
    requires bar { IsLengthOfANote bar.0 }
    requires some { 1 ≤ bar.0 }
    ensures { result ≡ bars_in length.0 bar.0 }
{
    (length.0 + (bar.0 - 1)) / bar.0
}

/// Appends the steps of all bars of a stretch.
#[tactic(auto, using(crate::proofs::Bars::begins_within, crate::proofs::Bars::next_bar))]
fn put_bars(
    steps: &mut Sequence<StepSpan>,
    bar: Grains,
    length: Grains,
    spans: &[StepSpan],
) -> Result<(), AllocError>
    requires length { IsLengthOfANote length.0 }
    requires bar { IsLengthOfANote bar.0 }
    requires some { 1 ≤ bar.0 }
    requires spans { All IsSpanIn spans.now }
    ensures { OnOk result (steps.new ≡ steps.old ++ repeated_steps (bars_in length.0 bar.0) 0 bar.0 length.0 spans.now) }
{
    let bars = bars_in(length, bar);
    for index in 0..bars {
        put_bar(steps, Grains(index * bar.0), length, spans)?;
    }
    Ok(())
}

/// Returns the steps of a pattern along a stretch, by its steps in one bar. A longer stretch has the pattern again from its
/// beginning, and a shorter one ends it. A pickup, which is shorter than a bar, has the end of the pattern. It returns an error if
/// an allocation fails.
pub fn stretch_steps(
    alloc: Global,
    pickup: bool,
    bar: Grains,
    length: Grains,
    spans: &[StepSpan],
) -> Result<Sequence<StepSpan>, AllocError>
    requires length { IsLengthOfANote length.0 }
    requires bar { IsLengthOfANote bar.0 }
    requires some { 1 ≤ bar.0 }
    requires spans { All IsSpanIn spans.now }
    ensures { IfOk result (λ steps. steps ≡ stretch_steps pickup bar.0 length.0 spans.now) }
{
    let mut steps = Sequence::new(alloc);
    if pickup {
        put_ending(&mut steps, Grains(bar.0.saturating_sub(length.0)), spans)?;
    } else {
        put_bars(&mut steps, bar, length, spans)?;
    }
    Ok(steps)
}
