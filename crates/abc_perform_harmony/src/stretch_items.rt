//! The accompaniment of a stretch.

ghost use Rattle.std.specs.Prelude.{◌≡◌, ◌≤◌, ◌++◌, All, OnOk, length};
ghost use Rattle.abc_perform_harmony.specs.Harmony.{IsHarmony, IsTimedMark};
ghost use Rattle.abc_perform_harmony.specs.StretchItems.{IsStep, due_count, step_items, stretch_items};

use crate::harmony::{Harmony, harmony_after};
use crate::harmony_mark::{Part, TimedMark};
use crate::program_items::put_programs;
use crate::step_item::step_item;
use abc_perform_chords::StepSpan;
use abc_perform_item::Performance;
use abc_time::Grains;
use std::alloc::{AllocError, Global};

/// Returns how many of the first marks are at or before a moment.
fn due_count(moment: Grains, marks: &[TimedMark]) -> usize
    ensures value { result ≡ due_count moment.0 marks.now }
    ensures within { result ≤ length marks.now }
{
    for (index, timed) in marks.iter().enumerate() {
        if timed.moment.0 > moment.0 {
            return index;
        }
    }
    marks.len()
}

/// Appends what a voice of the accompaniment plays in steps, with what holds before the marks.
fn put_steps(
    alloc: Global,
    performance: &mut Performance,
    part: Part,
    harmony: Harmony,
    marks: &[TimedMark],
    steps: &[StepSpan],
) -> Result<(), AllocError>
    requires harmony { IsHarmony harmony }
    requires marks { All IsTimedMark marks.now }
    requires steps { All IsStep steps.now }
    ensures { OnOk result (performance.new ≡ performance.old ++ step_items part harmony marks.now steps.now) }
{
    let mut holds = harmony;
    let mut done: usize = 0;
    for step in steps {
        let rest = &marks[done..];
        let count = due_count(step.from, rest);
        put_programs(performance, part, &rest[..count])?;
        holds = harmony_after(holds, &rest[..count]);
        done += count;
        performance.push(step_item(alloc, part, holds, *step)?)?;
    }
    put_programs(performance, part, &marks[done..])
}

/// Appends what a voice of the accompaniment plays in a stretch (ABC 2.1 section 4.18): in each step the chord of the last mark
/// at or before its beginning. In a pickup the marks before the stretch name no chord. Programs are before the first step that
/// begins with or after them, or at the end. It returns an error if an allocation fails.
pub fn put_stretch(
    alloc: Global,
    performance: &mut Performance,
    part: Part,
    pickup: bool,
    harmony: Harmony,
    marks: &[TimedMark],
    steps: &[StepSpan],
) -> Result<(), AllocError>
    requires harmony { IsHarmony harmony }
    requires marks { All IsTimedMark marks.now }
    requires steps { All IsStep steps.now }
    ensures { OnOk result (performance.new ≡ performance.old ++ stretch_items part pickup harmony marks.now steps.now) }
{
    let before = if pickup {
        harmony.without_chord()
    } else {
        harmony
    };
    put_steps(alloc, performance, part, before, marks, steps)
}
