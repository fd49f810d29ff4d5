//! Chords whose tones begin one after another.

ghost use Rattle.std.specs.Prelude.{◌≡◌, ◌≤◌, ◌-◌, ◌*◌, ◌++◌, ◌∷◌, [], All, IfOk, OnOk, length, map, take};
ghost use Rattle.abc_bars_items.specs.Item.{AreTones, IsTone, IsWithinLongest};
ghost use Rattle.abc_perform_note.specs.Length.{IsLengthOfANote};
ghost use Rattle.abc_perform_item.specs.Performance.{IsPerformed};
ghost use Rattle.abc_perform_item.specs.SpreadChord.{last_item, later_tone, spread_items, step_item, step_items, step_tone};

use crate::performance::Performance;
use crate::performed::{Performed, Place, Source};
use abc_bars_items::{Item, Tone, Tones};
use abc_perform_note::spread_step;
use abc_text::ShortSequence;
use abc_time::Grains;
use std::alloc::{AllocError, Global};

/// Returns a tone in a step before the last tone of its chord: as long as the step, and tied to itself in the next one.
fn step_tone(step: Grains, tone: Tone) -> Tone
    requires tone { IsTone tone }
    requires step { IsLengthOfANote step.0 }
    ensures value { result ≡ step_tone step tone }
    ensures range { IsTone result }
{
    Tone {
        length: step,
        key: tone.key,
        velocity: tone.velocity,
        tied: true,
    }
}

/// Returns the tones of a step.
fn step_tones(
    alloc: Global,
    step: Grains,
    tones: &[Tone],
) -> Result<ShortSequence<Tone>, AllocError>
    requires tones { All IsTone tones.now }
    requires step { IsLengthOfANote step.0 }
    ensures value { IfOk result (λ made. made ≡ map (step_tone step) tones.now) }
    ensures range { IfOk result (λ made. All IsTone made) }
{
    let mut made = ShortSequence::new(alloc);
    for tone in tones {
        made.push(step_tone(step, *tone))?;
    }
    Ok(made)
}

/// Returns a step as an item, with the tones that sound in it.
fn step_item(
    alloc: Global,
    item: Place,
    step: Grains,
    tones: &[Tone],
) -> Result<Performed, AllocError>
    requires tones { AreTones tones.now }
    requires step { IsLengthOfANote step.0 }
    ensures value { IfOk result (λ performed. performed ≡ step_item item step tones.now) }
    ensures range { IfOk result IsPerformed }
{
    let made = step_tones(alloc, step, tones)?;
    let tones = Tones::of(alloc, made)?;
    Ok(Performed {
        item: Item::Tone {
            tones,
            length: step,
        },
        source: Source::Item(item),
    })
}

/// Appends the steps before the last tone of a chord. Each has one tone more.
fn put_steps(
    alloc: Global,
    performance: &mut Performance,
    item: Place,
    step: Grains,
    tones: &[Tone],
) -> Result<(), AllocError>
    requires tones { AreTones tones.now }
    requires step { IsLengthOfANote step.0 }
    ensures { OnOk result (performance.new
        ≡ performance.old ++ step_items item step tones.now 0 (take (length tones.now - 1) tones.now)) }
{
    let before_last = &tones[..tones.len() - 1];
    for (index, _) in before_last.iter().enumerate() {
        performance.push(step_item(alloc, item, step, &tones[..index + 1])?)?;
    }
    Ok(())
}

/// Returns a tone in what is left of its chord after the steps.
fn later_tone(steps: Grains, tone: Tone) -> Tone
    requires { IsTone tone }
    ensures value { result ≡ later_tone steps tone }
    ensures range { IsTone result }
{
    Tone {
        length: Grains(tone.length.0.saturating_sub(steps.0)),
        key: tone.key,
        velocity: tone.velocity,
        tied: tone.tied,
    }
}

/// Returns the tones in what is left of their chord after the steps.
fn later_tones(
    alloc: Global,
    steps: Grains,
    tones: &[Tone],
) -> Result<ShortSequence<Tone>, AllocError>
    requires { All IsTone tones.now }
    ensures value { IfOk result (λ made. made ≡ map (later_tone steps) tones.now) }
    ensures range { IfOk result (λ made. All IsTone made) }
{
    let mut made = ShortSequence::new(alloc);
    for tone in tones {
        made.push(later_tone(steps, *tone))?;
    }
    Ok(made)
}

/// Returns what is left of a chord after the steps as an item.
fn last_item(
    alloc: Global,
    item: Place,
    steps: Grains,
    tones: &[Tone],
    length: Grains,
) -> Result<Performed, AllocError>
    requires tones { AreTones tones.now }
    requires steps { steps.0 ≤ length.0 }
    requires length { IsWithinLongest length }
    ensures value { IfOk result (λ performed. performed ≡ last_item item steps tones.now length) }
    ensures range { IfOk result IsPerformed }
{
    let made = later_tones(alloc, steps, tones)?;
    let tones = Tones::of(alloc, made)?;
    Ok(Performed {
        item: Item::Tone {
            tones,
            length: Grains(length.0 - steps.0),
        },
        source: Source::Item(item),
    })
}

/// Appends a chord whose tones begin one after another and sound on together.
pub(crate) fn put_spread(
    alloc: Global,
    performance: &mut Performance,
    item: Place,
    tones: &[Tone],
    long: Grains,
) -> Result<(), AllocError>
    requires tones { AreTones tones.now }
    requires some { 2 ≤ length tones.now }
    requires long { IsWithinLongest long }
    ensures { OnOk result (performance.new ≡ performance.old ++ spread_items item tones.now long) }
{
    let step = spread_step(long, tones.len());
    put_steps(alloc, performance, item, step, tones)?;
    let steps = Grains((tones.len() as u64 - 1) * step.0);
    performance.push(last_item(alloc, item, steps, tones, long)?)?;
    Ok(())
}
