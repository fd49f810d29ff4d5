//! Which tunes of an edited text are tunes of the old one, cell by cell.

ghost use Rattle.std.specs.Prelude.{◌≡◌, ◌+◌, All, IfOk, IfSome, IsSome, Some, drop, length, slice_get};
ghost use Rattle.std.specs.List.{AllZip, flat_map};
ghost use Rattle.abc_live_text.specs.Pieces.{IsCarried, IsChain, IsFolded, LiesWithin, cells_in};
ghost use Rattle.abc_live_text.specs.ReusedTunes.{GoesAlong, KnowsAlong, are_alike_both, continues, first_source, is_along};
ghost use Rattle.abc_live_cost.specs.OldItems.{HasItemsOf};
ghost use Rattle.abc_fold.specs.Chain.{Folds};

use crate::origin::CarriedRow;
use abc_book::Block;
use abc_fold::{Chain, Fold, Shared};
use abc_lines::GapList;
use std::alloc::{AllocError, Global};

/// Whether the old chain of a number holds the cells of a line from a place on.
fn continues<K: Drop>(row: &CarriedRow<K>, source: usize, place: usize) -> bool
    ensures { result ≡ continues source place row.now }
{
    if row.cells().len() == 0 {
        return true;
    }
    match &row.origin {
        None => false,
        Some(origin) => origin.source == source && origin.first == place,
    }
}

/// Whether the cells of lines are all the cells of an old chain, which has `count`.
fn is_along<K: Drop>(rows: &[CarriedRow<K>], source: usize, count: usize) -> bool
    ensures { result ≡ is_along source count 0 rows.now }
{
    let mut place: usize = 0;
    for row in rows {
        let cells = row.cells().len();
        if cells > count - place {
            return false;
        }
        if !continues(row, source, place) {
            return false;
        }
        place += cells;
    }
    place == count
}

/// Returns the old chain that holds the first of some lines.
fn first_source<K: Drop>(rows: &[CarriedRow<K>]) -> Option<usize>
    ensures { result ≡ first_source rows.now }
{
    match rows {
        [] => None,
        [row, ..] => match &row.origin {
            None => None,
            Some(origin) => Some(origin.source),
        },
    }
}

/// Whether a chain begins in a state equivalent to this one.
fn begins_in<F: Fold>(chain: &Chain<F>, opening: &F::State) -> bool
    ensures { (fold : F) → result ≡ are_alike_both (F.steps fold).alike (slice_get chain.now.entries 0) (Some opening.now) }
{
    match chain.entry(0) {
        None => false,
        Some(state) => F::same(state, opening),
    }
}

/// Whether two chains begin in equivalent states.
fn begin_alike<F: Fold>(chain: &Chain<F>, other: &Chain<F>) -> bool
    ensures { (fold : F) → result ≡ are_alike_both (F.steps fold).alike (slice_get chain.now.entries 0)
        (slice_get other.now.entries 0) }
{
    match other.entry(0) {
        None => false,
        Some(begun) => begins_in(chain, begun),
    }
}

/// Returns the old chain that holds exactly the cells of lines and begins in an equivalent state, if there is one.
pub(crate) fn whole_chain<'a, F: Fold>(
    fold: &F,
    old: &'a GapList<Shared<Chain<F>>>,
    opening: &F::State,
    rows: &[CarriedRow<F::Cell>],
) -> Option<&'a Shared<Chain<F>>>
    requires carried { All (IsCarried old.now.items) rows.now }
    requires folded { All (IsFolded (F.steps fold.now)) old.now.items }
    ensures folds { IfSome result (λ chain. Folds (F.steps fold.now) opening.now chain.now) }
    ensures cells { IfSome result (λ chain. chain.now.cells ≡ flat_map cells_in rows.now) }
    ensures along { GoesAlong (F.steps fold.now) old.now.items opening.now rows.now → IsSome result }
{
    let source = first_source(rows)?;
    let known = old.get(source)?;
    let old_chain = known.get();
    if !is_along(rows, source, old_chain.len()) {
        return None;
    }
    if !begins_in(old_chain, opening) {
        return None;
    }
    Some(known)
}

/// Returns the old tune, counted from 0, that has exactly the cells of a tune and begins in an equivalent state, if there is
/// one.
fn reused_tune<F: Fold>(
    fold: &F,
    old: &GapList<Shared<Chain<F>>>,
    chain: &Chain<F>,
    rows: &[CarriedRow<F::Cell>],
) -> Option<usize>
    requires carried { All (IsCarried old.now.items) rows.now }
    requires folded { All (IsFolded (F.steps fold.now)) old.now.items }
    ensures items { (opening : F.State) → Folds (F.steps fold.now) opening chain.now
        → chain.now.cells ≡ flat_map cells_in rows.now → HasItemsOf (drop 1 old.now.items) chain.now result }
    ensures along { (opening : F.State) → Folds (F.steps fold.now) opening chain.now
        → GoesAlong (F.steps fold.now) old.now.items opening rows.now → IsSome result }
{
    let source = first_source(rows)?;
    if source == 0 {
        return None;
    }
    let known = old.get(source)?;
    let old_chain = known.get();
    if !is_along(rows, source, old_chain.len()) {
        return None;
    }
    if !begin_alike(old_chain, chain) {
        return None;
    }
    Some(source - 1)
}

/// For each tune among lines, the old tune that it equals, if one is known.
pub(crate) fn reused_tunes<F: Fold>(
    alloc: Global,
    fold: &F,
    old: &GapList<Shared<Chain<F>>>,
    chains: &[Shared<Chain<F>>],
    rows: &[CarriedRow<F::Cell>],
    tunes: &[Block],
) -> Result<Vec<Option<usize>>, AllocError>
    requires carried { All (IsCarried old.now.items) rows.now }
    requires folded { All (IsFolded (F.steps fold.now)) old.now.items }
    requires within { All (LiesWithin (length rows.now)) tunes.now }
    requires count { length chains.now ≡ length tunes.now }
    ensures items { (begun : F.State) → AllZip (IsChain (F.steps fold.now) begun rows.now) chains.now tunes.now
        → IfOk result (λ r. AllZip (HasItemsOf (drop 1 old.now.items)) chains.now r.items) }
    ensures along { (begun : F.State) → AllZip (IsChain (F.steps fold.now) begun rows.now) chains.now tunes.now
        → IfOk result (λ r. KnowsAlong (F.steps fold.now) old.now.items begun rows.now tunes.now r.items) }
{
    let mut reused_tunes = Vec::new(alloc);
    for (place, chain) in chains.iter().enumerate() {
        let tune = tunes[place];
        let own = &rows[tune.from..tune.to];
        let one = reused_tune(fold, old, chain.get(), own);
        reused_tunes.push(one)?;
    }
    Ok(reused_tunes)
}
