//! The runs of a part: many notes between few marks, each run played as a whole.

ghost use Rattle.std.specs.Prelude.{◌≡◌, ◌++◌, All, IfOk, OnOk};
ghost use Rattle.abc_repeat.specs.Runs.{marks_in};
ghost use Rattle.abc_voices_sections.specs.ItemRuns.{runs_of, items_in, AreAllPlayed, IsRun, AreRuns};

use crate::step::{AsItem, is_played, mark_of};
use abc_repeat::Mark;
use std::alloc::{AllocError, Global};

/// Played steps up to the next mark, or a mark by itself.
#[derive(Clone, Copy)]
pub(crate) struct ItemRun<'p, T> {
    /// `Mark::Play` for played steps.
    pub mark: Mark,
    /// Its steps, at least one.
    pub items: &'p [T],
}

/// Appends played steps as one run, if there are any.
fn push_run<'p, T: AsItem>(
    found: &mut Vec<ItemRun<'p, T>>,
    items: &'p [T],
) -> Result<(), AllocError>
    requires { AreAllPlayed T.item_of items.now }
    ensures whole { OnOk result (items_in (runs_of found.new.items)
        ≡ items_in (runs_of found.old.items) ++ items.entry.now) }
    ensures each { OnOk result (All (IsRun T.item_of) (runs_of found.old.items)
        → All (IsRun T.item_of) (runs_of found.new.items)) }
{
    if !items.is_empty() {
        found.push(ItemRun {
            mark: Mark::Play,
            items,
        })?;
    }
    Ok(())
}

/// Returns the runs of a part.
pub(crate) fn item_runs<'p, T: AsItem>(
    alloc: Global,
    part: &'p [T],
) -> Result<Vec<ItemRun<'p, T>>, AllocError>
    ensures { IfOk result (λ found. AreRuns T.item_of part.entry.now (runs_of found.items)) }
{
    let mut found = Vec::new(alloc);
    let mut begin = 0;
    for (at, item) in part.iter().enumerate() {
        if !is_played(item) {
            push_run(&mut found, &part[begin..at])?;
            found.push(ItemRun {
                mark: mark_of(item),
                items: &part[at..at + 1],
            })?;
            begin = at + 1;
        }
    }
    push_run(&mut found, &part[begin..])?;
    Ok(found)
}

/// Returns the marks of runs.
pub(crate) fn marks_of<T: AsItem>(
    alloc: Global,
    item_runs: &[ItemRun<'_, T>],
) -> Result<Vec<Mark>, AllocError>
    ensures { IfOk result (λ marks. marks.items ≡ marks_in (runs_of item_runs.now)) }
{
    let mut marks = Vec::with_capacity(alloc, item_runs.len())?;
    for item_run in item_runs {
        marks.push(item_run.mark)?;
    }
    Ok(marks)
}
