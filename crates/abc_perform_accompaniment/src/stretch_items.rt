//! The items of the accompaniment of a stretch.

ghost use Rattle.std.specs.Prelude.{◌≡◌, ◌≤◌, ◌++◌, All, IfOk, OnOk};
ghost use Rattle.abc_bars_items.specs.Item.{IsItem};
ghost use Rattle.abc_fields.specs.Meter.{IsMeterInRange};
ghost use Rattle.abc_perform_chords.specs.PatternSteps.{total_count};
ghost use Rattle.abc_perform_harmony.specs.StretchItems.{IsStep};
ghost use Rattle.abc_perform_item.specs.Performance.{IsPerformed};
ghost use Rattle.abc_perform_note.specs.Length.{IsLengthOfANote};
ghost use Rattle.abc_perform_accompaniment.specs.Stretch.{IsBegin, IsStretch};
ghost use Rattle.abc_perform_accompaniment.specs.StretchItems.{bar_of, empty_rest, is_pickup, items_of_stretch, made_item, pickup_in, steps_along, steps_from, steps_in};

use crate::stretch::{StretchBegin, StretchState};
use abc_bars_items::Item;
use abc_fields::Meter;
use abc_marks::Step;
use abc_perform_chords::{StepSpan, bar_spans};
use abc_perform_harmony::{Part, put_stretch};
use abc_perform_item::{Performance, Performed, Source};
use abc_perform_patterns::{default_pattern, stretch_steps};
use abc_text::Sequence;
use abc_time::{Grains, WHOLE_NOTE};
use std::alloc::{AllocError, Global};

/// Returns how much of a stretch the pattern fills: a bar of the meter, or all of it in free meter.
#[tactic(auto, using(crate::proofs::Bars::bar_is_some, crate::proofs::Bars::bar_is_short), unfolding(abc_time::specs::Grains::grains_of_a_whole_note, abc_time::specs::Grains::grains_of_the_longest_length))]
fn bar_of(meter: Meter, length: Grains) -> Grains
    requires meter { IsMeterInRange meter }
    requires length { IsLengthOfANote length.0 }
    requires some { 1 ≤ length.0 }
    ensures value { result.0 ≡ bar_of meter length.0 }
    ensures some { 1 ≤ result.0 }
    ensures range { IsLengthOfANote result.0 }
{
    match meter {
        Meter::Free => length,
        Meter::Of { num, den } => Grains(u64::from(num) * WHOLE_NOTE.0 / u64::from(den)),
    }
}

/// Returns whether a stretch is a pickup: shorter than a bar, where a pickup may be.
fn pickup_in(first: bool, meter: Meter, length: Grains) -> bool
    requires meter { IsMeterInRange meter }
    requires length { IsLengthOfANote length.0 }
    requires some { 1 ≤ length.0 }
    ensures { result ≡ pickup_in first meter length.0 }
{
    first && length.0 < bar_of(meter, length).0
}

/// Returns the steps of a pattern along a stretch.
fn steps_along(
    alloc: Global,
    first: bool,
    meter: Meter,
    length: Grains,
    pattern: &[Step],
) -> Result<Sequence<StepSpan>, AllocError>
    requires meter { IsMeterInRange meter }
    requires length { IsLengthOfANote length.0 }
    requires some { 1 ≤ length.0 }
    requires counts { 1 ≤ total_count pattern.now }
    requires few { total_count pattern.now ≤ 6336 }
    ensures value { IfOk result (λ steps. steps ≡ steps_along first meter length.0 pattern.now) }
    ensures range { IfOk result (λ steps. All IsStep steps) }
{
    let bar = bar_of(meter, length);
    let spans = bar_spans(alloc, pattern, bar)?;
    let pickup = pickup_in(first, meter, length);
    let steps = stretch_steps(alloc, pickup, bar, length, spans.as_slice())?;
    Ok(steps)
}

/// Returns the steps along a stretch, by what holds at its beginning. In free meter chord and bass sound together.
#[tactic(auto, using(crate::proofs::Bars::pattern_counts, abc_perform_patterns::proofs::Counts::defaults_fit))]
fn steps_from(
    alloc: Global,
    first: bool,
    begin: &StretchBegin,
    length: Grains,
) -> Result<Sequence<StepSpan>, AllocError>
    requires begin { IsBegin begin.now }
    requires length { IsLengthOfANote length.0 }
    requires some { 1 ≤ length.0 }
    ensures value { IfOk result (λ steps. steps ≡ steps_from first begin.now length.0) }
    ensures range { IfOk result (λ steps. All IsStep steps) }
{
    match (begin.meter, &begin.pattern) {
        (Meter::Of { .. }, Some(pattern)) => {
            steps_along(alloc, first, begin.meter, length, pattern.get().as_slice())
        }
        _ => {
            let pattern = default_pattern(alloc, begin.meter)?;
            steps_along(alloc, first, begin.meter, length, pattern.as_slice())
        }
    }
}

/// Returns the steps of the accompaniment in a stretch: none if it has no length.
fn steps_in(alloc: Global, state: &StretchState) -> Result<Sequence<StepSpan>, AllocError>
    requires { IsStretch state.now }
    ensures value { IfOk result (λ steps. steps ≡ steps_in state.now) }
    ensures range { IfOk result (λ steps. All IsStep steps) }
{
    match &state.begin {
        Some(begin) if state.length.0 > 0 => steps_from(alloc, state.first, begin, state.length),
        _ => Ok(Sequence::new(alloc)),
    }
}

/// Returns whether a stretch is a pickup.
fn is_pickup(state: &StretchState) -> bool
    requires { IsStretch state.now }
    ensures { result ≡ is_pickup state.now }
{
    match &state.begin {
        Some(begin) if state.length.0 > 0 => pickup_in(state.first, begin.meter, state.length),
        _ => false,
    }
}

/// Returns an item that nothing in the text gives.
pub(crate) fn made_item(item: Item) -> Performed
    requires { IsItem item }
    ensures value { result ≡ made_item item }
    ensures range { IsPerformed result }
{
    Performed {
        item,
        source: Source::Nothing,
    }
}

/// Appends a rest without length for a stretch that has a note, chord or rest but no length.
fn put_empty_rest(performance: &mut Performance, state: &StretchState) -> Result<(), AllocError>
    ensures { OnOk result (performance.new ≡ performance.old ++ empty_rest state.now) }
{
    if state.begin.is_some() && state.length.0 == 0 {
        performance.push(made_item(Item::Rest {
            length: Grains(0),
            bar: false,
        }))?;
    }
    Ok(())
}

/// Appends what a voice of the accompaniment plays in a stretch (ABC 2.1 section 4.18).
pub(crate) fn put_stretch_items(
    alloc: Global,
    performance: &mut Performance,
    part: Part,
    state: &StretchState,
) -> Result<(), AllocError>
    requires { IsStretch state.now }
    ensures { OnOk result (performance.new ≡ performance.old ++ items_of_stretch part state.now) }
{
    put_empty_rest(performance, state)?;
    let steps = steps_in(alloc, state)?;
    let marks = state.marks.as_slice();
    let pickup = is_pickup(state);
    put_stretch(
        alloc,
        performance,
        part,
        pickup,
        state.setting.harmony,
        marks,
        steps.as_slice(),
    )
}
