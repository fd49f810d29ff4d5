//! The token of a cell that gives each of its items.

ghost use Rattle.std.specs.Prelude.{◌≡◌, ◌+◌, ◌≤◌, ◌^◌, ◌<◌, drop, length, IfOk};
ghost use Rattle.abc_bars_body.specs.declared.body.Body.{Body};
ghost use Rattle.abc_bars_body.specs.Cell.{cell_result};
ghost use Rattle.abc_play_places.specs.Givers.{first_giver, matched, placed, givers};

use crate::given::{gives_place, has_place};
use abc_bars_items::Item;
use abc_scan::Token;
use std::alloc::{AllocError, Global};

/// Returns the index of the first token from an index on that gives an item with a place; beyond the last one if there is none.
fn next_giver(cell: &[Token], from: usize) -> usize
    requires { from ≤ length cell.now }
    ensures value { result ≡ from + first_giver (drop from cell.now) }
    ensures inside { result ≤ length cell.now }
{
    for at in from..cell.len() {
        if gives_place(&cell[at].kind) {
            return at;
        }
    }
    cell.len()
}

/// Returns for each item of a cell of a tune's body the index of the token that gives it. None for items without a place. It
/// returns an error if an allocation fails.
pub fn givers_of(
    alloc: Global,
    cell: &[Token],
    items: &[Item],
) -> Result<Vec<Option<usize>>, AllocError>
    ensures value { IfOk result (λ found. found.items ≡ matched cell.now 0 items.now) }
    ensures exact { IfOk result (λ found. (body : Body) → items.now ≡ (cell_result body cell.now).items.items
        → found.items ≡ placed items.now (givers body cell.now)) }
{
    let mut found = Vec::with_capacity(alloc, items.len())?;
    let mut next = 0;
    for item in items {
        if has_place(item) {
            let at = next_giver(cell, next.min(cell.len()));
            found.push(Some(at))?;
            next = at + 1;
        } else {
            found.push(None)?;
        }
    }
    Ok(found)
}
