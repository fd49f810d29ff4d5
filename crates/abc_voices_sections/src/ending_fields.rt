//! The order in which a voice's items are played in a section.

ghost use Rattle.std.specs.Prelude.{◌≡◌, ◌++◌, [], not, All, IfOk, OnOk};
ghost use Rattle.abc_voices_sections.specs.ItemRuns.{runs_of, items_in, IsRun};
ghost use Rattle.abc_voices_sections.specs.declared.ending_fields.EndingRegion.TheVariants as regions;
ghost use Rattle.abc_voices_sections.specs.EndingFields.{waits, after_bar, after_mark, region_after, nothing_waits};
ghost use Rattle.abc_voices_sections.specs.EndingFields.{with_waiting, ordered};

use crate::item_runs::ItemRun;
use crate::step::{AsItem, is_field_step, is_single_bar, mark_of};
use abc_repeat::Mark;
use std::alloc::{AllocError, Global};

/// The region of a strain, by its endings.
#[derive(Clone, Copy)]
pub enum EndingRegion {
    /// Before the first ending.
    Common,
    /// In an ending.
    Inside,
    /// After a bar that ended an ending and opens nothing.
    AfterBar,
}

impl EndingRegion {
    /// Whether a step in this region waits for the next ending's sign.
    fn waits<T: AsItem>(self, step: &T) -> bool
        ensures { result ≡ waits self (T.item_of step.now) }
    {
        match self {
            EndingRegion::AfterBar => is_field_step(step) || is_single_bar(step),
            _ => false,
        }
    }

    /// Returns the region after a bar that ends an ending.
    fn after_bar(bar: Mark) -> EndingRegion
        ensures { result ≡ after_bar bar }
    {
        if bar.opens_next() {
            EndingRegion::Common
        } else {
            EndingRegion::AfterBar
        }
    }

    /// Returns the region after a mark that does not wait.
    fn after_mark(self, mark: Mark) -> EndingRegion
        ensures { result ≡ region_after self mark }
    {
        match self {
            _ if mark.is_ending() => EndingRegion::Inside,
            EndingRegion::Inside if mark.closes_ending() => EndingRegion::after_bar(mark),
            EndingRegion::Inside => EndingRegion::Inside,
            _ => EndingRegion::Common,
        }
    }
}

/// Whether a step in the runs of a part waits for an ending's sign. Such a step is the first of its run.
pub(crate) fn has_waiting_item<T: AsItem>(item_runs: &[ItemRun<'_, T>]) -> bool
    requires { All (IsRun T.item_of) (runs_of item_runs.now) }
    ensures { not result ≡ nothing_waits T.item_of regions.Common (items_in (runs_of item_runs.now)) }
{
    let mut region = EndingRegion::Common;
    for item_run in item_runs {
        if region.waits(&item_run.items[0]) {
            return true;
        }
        region = region.after_mark(item_run.mark);
    }
    false
}

/// Appends a step and those that have waited: an ending's sign before them, anything else after.
fn put_with_waiting<T: AsItem>(
    out: &mut Vec<T>,
    waiting: &mut Vec<T>,
    step: &T,
) -> Result<(), AllocError>
    ensures put { OnOk result (out.new.items
        ≡ out.old.items ++ with_waiting T.item_of waiting.old.items step.now) }
    ensures waiting { OnOk result (waiting.new.items ≡ []) }
{
    if waiting.is_empty() {
        out.push(*step)?;
        return Ok(());
    }
    if mark_of(step).is_ending() {
        out.push(*step)?;
        out.extend_from_slice(waiting)?;
    } else {
        out.extend_from_slice(waiting)?;
        out.push(*step)?;
    }
    waiting.clear();
    Ok(())
}

/// Returns the steps of a voice in a section, with fields after an ending's bar moved after the next ending's sign.
pub(crate) fn with_fields_in_endings<T: AsItem>(
    alloc: Global,
    part: &[T],
) -> Result<Vec<T>, AllocError>
    ensures { IfOk result (λ steps. steps.items ≡ ordered T.item_of part.now) }
{
    let mut steps = Vec::with_capacity(alloc, part.len())?;
    let mut waiting = Vec::new(alloc);
    let mut region = EndingRegion::Common;
    for step in part {
        if region.waits(step) {
            waiting.push(*step)?;
        } else {
            put_with_waiting(&mut steps, &mut waiting, step)?;
            region = region.after_mark(mark_of(step));
        }
    }
    steps.extend_from_slice(&waiting)?;
    Ok(steps)
}
