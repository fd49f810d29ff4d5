//! When the steps of a pattern begin and end in a bar.

ghost use Rattle.std.specs.Prelude.{◌≡◌, ◌+◌, ◌*◌, ◌-◌, ◌/◌, ◌≤◌, ◌<◌, ◌++◌, ◌∷◌, [], All, IfOk, OnOk, length, sum_by};
ghost use Rattle.abc_perform_note.specs.Length.{IsLengthOfANote};
ghost use Rattle.abc_perform_chords.specs.PatternSteps.{FillsBar, moment_of, spans_from, total_count};

use abc_marks::{Step, StepSound};
use abc_text::Sequence;
use abc_time::Grains;
use std::alloc::{AllocError, Global};

/// A step of a pattern in a bar, from one moment to another, counted from the beginning of the bar.
#[derive(Clone, Copy)]
pub struct StepSpan {
    pub sound: StepSound,
    pub from: Grains,
    pub to: Grains,
}

/// The most counts of a pattern: 64 steps of 99 counts.
pub const MOST_COUNTS: u64 = 6_336;

/// Returns the counts of all steps of a pattern.
fn total_count(pattern: &[Step]) -> u64
    requires { total_count pattern.now ≤ MOST_COUNTS }
    ensures { result ≡ total_count pattern.now }
{
    pattern.iter().map(|step| u64::from(step.count)).sum()
}

/// Returns the moment of a bar that some of its counts precede, rounded down.
#[tactic(auto, using(crate::proofs::Moments::counted_fits), unfolding(abc_time::specs::Grains::grains_of_a_whole_note, abc_time::specs::Grains::grains_of_the_longest_length))]
fn moment_of(bar: Grains, counted: u64, total: u64) -> Grains
    requires bar { IsLengthOfANote bar.0 }
    requires counted { counted ≤ total }
    requires total { total ≤ MOST_COUNTS }
    requires some { 1 ≤ total }
    ensures { result.0 ≡ moment_of bar.0 total counted }
{
    Grains(bar.0 * counted / total)
}

/// Returns the steps of a pattern with this many counts in a bar.
fn spans_of(
    alloc: Global,
    pattern: &[Step],
    bar: Grains,
    total: u64,
) -> Result<Sequence<StepSpan>, AllocError>
    requires bar { IsLengthOfANote bar.0 }
    requires total { total ≡ total_count pattern.now }
    requires few { total ≤ MOST_COUNTS }
    requires some { 1 ≤ total }
    ensures { IfOk result (λ spans. spans ≡ spans_from bar.0 total 0 pattern.now) }
{
    let mut spans = Sequence::new(alloc);
    let mut counted: u64 = 0;
    for step in pattern {
        let from = moment_of(bar, counted, total);
        counted += u64::from(step.count);
        spans.push(StepSpan {
            sound: step.sound,
            from,
            to: moment_of(bar, counted, total),
        })?;
    }
    Ok(spans)
}

/// Returns the steps of a pattern in a bar. They fill it without gaps. It returns an error if an allocation fails.
pub fn bar_spans(
    alloc: Global,
    pattern: &[Step],
    bar: Grains,
) -> Result<Sequence<StepSpan>, AllocError>
    requires bar { IsLengthOfANote bar.0 }
    requires few { total_count pattern.now ≤ MOST_COUNTS }
    requires some { 1 ≤ total_count pattern.now }
    ensures value { IfOk result (λ spans. spans ≡ spans_from bar.0 (total_count pattern.now) 0 pattern.now) }
    ensures whole { IfOk result (λ spans. FillsBar bar.0 spans) }
{
    let total = total_count(pattern);
    let spans = spans_of(alloc, pattern, bar, total)?;
    Ok(spans)
}
