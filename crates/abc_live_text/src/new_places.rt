//! The places of a text's tunes after an edit, and how an edit commits them.

ghost use Rattle.std.specs.Prelude.{◌≡◌, ◌+◌, ◌-◌, ◌≤◌, ◌++◌, All, IfOk, OnOk, drop, length, map, take};
ghost use Rattle.abc_live_text.specs.Pieces.{LiesWithin};
ghost use Rattle.abc_live_text.specs.NewPlaces.{MayReplaceTunes, tune_places_after};
ghost use Rattle.abc_live_text.specs.KeptText.{LiesAfter, block_after};
ghost use Rattle.abc_lines.specs.declared.limits.TheConstants.{MOST_LINES};

use crate::stretch::Stretch;
use abc_book::Block;
use std::alloc::{AllocError, Global};

/// The places of a text's tunes after an edit.
#[derive(Drop)]
pub(crate) enum NewPlaces {
    /// All places.
    Whole(Vec<Block>),
    /// The count of tunes is unchanged: places of the stretch replace the old ones, and those after it move.
    Among,
}

/// Returns the place after the edit of a tune that is after the stretch.
fn block_after(block: Block, stretch: Stretch) -> Block
    requires beyond { LiesAfter stretch block }
    requires within { LiesWithin MOST_LINES block }
    requires lines { stretch.lines.from ≤ stretch.lines.to }
    requires numbers { stretch.lines.came ≤ MOST_LINES }
    ensures { result ≡ block_after stretch block }
{
    let removed = stretch.lines.to - stretch.lines.from;
    Block {
        kind: block.kind,
        from: block.from - removed + stretch.lines.came,
        to: block.to - removed + stretch.lines.came,
    }
}

/// Appends the places after the edit of the tunes that are after the stretch.
fn append_after(tunes: &mut Vec<Block>, old: &[Block], stretch: Stretch) -> Result<(), AllocError>
    requires inside { stretch.tunes.to ≤ length old.now }
    requires beyond { All (LiesAfter stretch) (drop stretch.tunes.to old.now) }
    requires within { All (LiesWithin MOST_LINES) old.now }
    requires lines { stretch.lines.from ≤ stretch.lines.to }
    requires numbers { stretch.lines.came ≤ MOST_LINES }
    ensures { OnOk result (tunes.new.items ≡ tunes.old.items ++ map (block_after stretch) (drop stretch.tunes.to old.now)) }
{
    for i in stretch.tunes.to..old.len() {
        tunes.push(block_after(old[i], stretch))?;
    }
    Ok(())
}

/// Returns the places of all tunes of a text after an edit.
fn all_places(
    alloc: Global,
    old: &[Block],
    stretch: Stretch,
    places: &[Block],
) -> Result<Vec<Block>, AllocError>
    requires order { stretch.tunes.from ≤ stretch.tunes.to }
    requires inside { stretch.tunes.to ≤ length old.now }
    requires beyond { All (LiesAfter stretch) (drop stretch.tunes.to old.now) }
    requires within { All (LiesWithin MOST_LINES) old.now }
    requires lines { stretch.lines.from ≤ stretch.lines.to }
    requires numbers { stretch.lines.came ≤ MOST_LINES }
    ensures { IfOk result (λ tunes. tunes.items ≡ take stretch.tunes.from old.now
        ++ (places.now ++ map (block_after stretch) (drop stretch.tunes.to old.now))) }
{
    let mut tunes = Vec::new(alloc);
    tunes.extend_from_slice(&old[..stretch.tunes.from])?;
    tunes.extend_from_slice(places)?;
    append_after(&mut tunes, old, stretch)?;
    Ok(tunes)
}

/// Replaces the places from index `front` on.
fn replace_places(tunes: &mut Vec<Block>, front: usize, places: &[Block])
    requires { front + length places.now ≤ length tunes.old.items }
    ensures { tunes.new.items ≡ take front tunes.old.items ++ (places.now ++ drop (front + length places.now) tunes.old.items) }
{
    for i in 0..places.len() {
        tunes[front + i] = places[i];
    }
}

/// Moves the tunes after a stretch to their places after the edit.
fn move_after(tunes: &mut Vec<Block>, stretch: Stretch)
    requires inside { stretch.tunes.to ≤ length tunes.old.items }
    requires beyond { All (LiesAfter stretch) (drop stretch.tunes.to tunes.old.items) }
    requires within { All (LiesWithin MOST_LINES) (drop stretch.tunes.to tunes.old.items) }
    requires lines { stretch.lines.from ≤ stretch.lines.to }
    requires numbers { stretch.lines.came ≤ MOST_LINES }
    ensures { tunes.new.items ≡ take stretch.tunes.to tunes.old.items
        ++ map (block_after stretch) (drop stretch.tunes.to tunes.old.items) }
{
    if stretch.lines.to - stretch.lines.from == stretch.lines.came {
        return;
    }
    for i in stretch.tunes.to..tunes.len() {
        tunes[i] = block_after(tunes[i], stretch);
    }
}

impl NewPlaces {
    /// Returns the places of a text's tunes after an edit. If their count is unchanged, those outside the stretch are not listed.
    pub(crate) fn of(
        alloc: Global,
        old: &[Block],
        stretch: Stretch,
        places: &[Block],
    ) -> Result<NewPlaces, AllocError>
        requires order { stretch.tunes.from ≤ stretch.tunes.to }
        requires inside { stretch.tunes.to ≤ length old.now }
        requires beyond { All (LiesAfter stretch) (drop stretch.tunes.to old.now) }
        requires within { All (LiesWithin MOST_LINES) old.now }
        requires lines { stretch.lines.from ≤ stretch.lines.to }
        requires numbers { stretch.lines.came ≤ MOST_LINES }
        ensures after { IfOk result (λ tunes. tune_places_after tunes stretch old.now places.now ≡ take stretch.tunes.from old.now
            ++ (places.now ++ map (block_after stretch) (drop stretch.tunes.to old.now))) }
        ensures put { IfOk result (λ tunes. MayReplaceTunes tunes stretch old.now places.now) }
    {
        if places.len() == stretch.tunes.to - stretch.tunes.from {
            return Ok(NewPlaces::Among);
        }
        let tunes = all_places(alloc, old, stretch, places)?;
        Ok(NewPlaces::Whole(tunes))
    }

    /// Commits the places without allocating.
    pub(crate) fn commit(self, tunes: &mut Vec<Block>, stretch: Stretch, places: &[Block])
        requires { MayReplaceTunes self stretch tunes.old.items places.now }
        ensures { tunes.new.items ≡ tune_places_after self stretch tunes.old.items places.now }
    {
        match self {
            NewPlaces::Whole(whole) => *tunes = whole,
            NewPlaces::Among => {
                replace_places(tunes, stretch.tunes.from, places);
                move_after(tunes, stretch);
            }
        }
    }
}
