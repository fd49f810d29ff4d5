//! The playings of sections, one after another.

ghost use Rattle.std.specs.Prelude.{◌≡◌, ◌<◌, ◌≤◌, MatchOption, IfOk};
ghost use Rattle.abc_time.specs.Grains.{grains_of_the_latest_end};
ghost use Rattle.abc_voices_sections.specs.Table.{at_places};
ghost use Rattle.abc_voices_sections.specs.Turns.{stages_in, length_along};

use crate::stage::Stage;
use crate::table::stage_at;
use abc_time::{Grains, LATEST_END};
use std::alloc::{AllocError, Global};

/// One playing of a section: its stage, which all playings of the section share.
#[derive(Clone, Copy)]
pub struct Turn<'s, T> {
    pub stage: &'s Stage<T>,
}

/// Returns the stages of a table at some places, in this order.
pub fn turns_in_order<'s, T>(
    alloc: Global,
    table: &'s [Option<Stage<T>>],
    places: &[usize],
) -> Result<Vec<Turn<'s, T>>, AllocError>
    ensures { IfOk result (λ turns. stages_in turns.items ≡ at_places table.entry.now places.now) }
{
    let mut turns = Vec::with_capacity(alloc, places.len())?;
    for place in places {
        if let Some(stage) = stage_at(table, *place) {
            turns.push(Turn { stage })?;
        }
    }
    Ok(turns)
}

/// Returns the length of stages one after another, unless that is later than a tune may end.
#[tactic(auto, unfolding(abc_time::specs::Grains::grains_of_a_whole_note, abc_time::specs::Grains::grains_of_the_latest_end))]
pub fn length_along<T>(turns: &[Turn<'_, T>]) -> Option<Grains>
    ensures { let along = length_along (stages_in turns.now) in
        MatchOption result (grains_of_the_latest_end < along)
        (λ grains. (grains.0 ≡ along) × (grains.0 ≤ grains_of_the_latest_end)) }
{
    let mut sum: u64 = 0;
    for turn in turns {
        sum = sum.saturating_add(turn.stage.longest.0);
    }
    if sum <= LATEST_END.0 {
        Some(Grains(sum))
    } else {
        None
    }
}
