//! Where the cells of a line are: the chain that holds them, and the place of the first in it.

ghost use Rattle.std.specs.Prelude.{◌≡◌, ◌+◌, ◌<◌, ◌≤◌, ◌++◌, IfOk, IfSome, IsSome, None, OnOk, Some, get_or, is_some, length, map, true};
ghost use Rattle.abc_live_text.specs.Origin.{BlocksRise, rows_along, rows_between, rows_until};
ghost use Rattle.abc_live_text.specs.Pieces.{address_from};
ghost use Rattle.abc_live_text.specs.Row.{at_origin, carried_row};

use crate::row::Row;
use abc_book::Block;
use abc_fold::Shared;
use abc_lines::GapList;
use abc_scan::LineClass;
use abc_text::Sequence;
use std::alloc::{AllocError, Global};
use std::marker::Model;

/// Which chain holds the cells of a line, and the place in it of the first of them. Chain 0 is that of the file
/// header, and the tunes are counted from 1.
#[derive(Drop)]
pub(crate) struct Origin {
    pub(crate) source: usize,
    pub(crate) first: usize,
}

impl Model for Origin {
    ghost use Rattle.abc_live_cost.specs.Origin.{Origin};

    ghost Value = { Origin };

    ghost view = { λ o. record { source = o.source; first = o.first } };
}

/// A line, and which chain holds its cells, if one does.
#[derive(Drop)]
pub(crate) struct CarriedRow<K: Drop> {
    pub(crate) class: LineClass,
    pub(crate) cells: Shared<Sequence<K>>,
    pub(crate) origin: Option<Origin>,
}

impl<K: Drop> Model for CarriedRow<K> {
    ghost use Rattle.abc_live_text.specs.Row.{CarriedRow};

    ghost Value = { CarriedRow K };

    ghost view = { λ r. record { class = r.class; cells = r.cells; origin = r.origin } };
}

impl<K: Drop> CarriedRow<K> {
    /// Returns the class of the line.
    pub(crate) fn class(&self) -> LineClass
        ensures { result ≡ self.now.class }
    {
        self.class
    }

    /// Returns the cells of the line.
    pub(crate) fn cells(&self) -> &[K]
        ensures { result.now ≡ self.now.cells }
    {
        self.cells.get().as_slice()
    }

    /// Whether a chain holds the cells of the line.
    pub(crate) fn has_origin(&self) -> bool
        ensures { result ≡ is_some self.now.origin }
    {
        self.origin.is_some()
    }

    /// Whether the cells of the line follow, in the same chain, those that end at `end`.
    pub(crate) fn goes_on(&self, end: &Option<Origin>) -> bool
        ensures origin { result ≡ true → IsSome self.now.origin }
        ensures same { result ≡ true → end.now ≡ self.now.origin }
        ensures found { IsSome self.now.origin → end.now ≡ self.now.origin → result ≡ true }
    {
        match (&self.origin, end) {
            (Some(origin), Some(end)) => origin.source == end.source && origin.first == end.first,
            _ => false,
        }
    }

    /// Where the cells of the line end in the chain that holds them.
    pub(crate) fn end(&self) -> Option<Origin>
        ensures place { IfSome result (λ end. address_from (length self.now.cells) self.now.origin ≡ Some (end.source, end.first)) }
        ensures found { IfSome (address_from (length self.now.cells) self.now.origin) (λ end. end.1 ≤ usize.MAX → IsSome result) }
    {
        let count = self.cells().len();
        match &self.origin {
            None => None,
            Some(origin) => {
                let first = origin.first.checked_add(count)?;
                Some(Origin {
                    source: origin.source,
                    first,
                })
            }
        }
    }

    /// Returns the same line.
    pub(crate) fn share(&self) -> Result<CarriedRow<K>, AllocError>
        ensures { IfOk result (λ row. row ≡ self.now) }
    {
        let origin = match &self.origin {
            None => None,
            Some(origin) => Some(Origin {
                source: origin.source,
                first: origin.first,
            }),
        };
        Ok(CarriedRow {
            class: self.class,
            cells: self.cells.share()?,
            origin,
        })
    }
}

impl<K: Drop> Row<K> {
    /// Returns the line with this origin.
    pub(crate) fn with_origin(&self, origin: Option<Origin>) -> Result<CarriedRow<K>, AllocError>
        ensures { IfOk result (λ row. row ≡ at_origin origin (carried_row self.now)) }
    {
        Ok(CarriedRow {
            class: self.class,
            cells: self.cells.share()?,
            origin,
        })
    }
}

/// Returns the item of a list at index `i`.
pub(crate) fn item_at<T>(list: &GapList<T>, i: usize) -> &T
    requires { i < length list.now.items }
    ensures { result.now ≡ get_or list.now.items i result.now }
{
    list.get(i).unwrap()
}

/// Appends lines without origins.
fn append_without_origin<K: Drop>(
    placed_rows: &mut Vec<CarriedRow<K>>,
    rows: &GapList<Row<K>>,
    from: usize,
    to: usize,
) -> Result<(), AllocError>
    requires order { from ≤ to }
    requires inside { to ≤ length rows.now.items }
    ensures { OnOk result (placed_rows.new.items ≡ placed_rows.old.items
        ++ map (at_origin None) (rows_between (map carried_row rows.now.items) from to)) }
{
    for i in from..to {
        let row = item_at(rows, i).with_origin(None)?;
        placed_rows.push(row)?;
    }
    Ok(())
}

/// Appends the lines of a block, whose cells are in the chain `source`.
fn append_block<K: Drop>(
    placed_rows: &mut Vec<CarriedRow<K>>,
    rows: &GapList<Row<K>>,
    source: usize,
    from: usize,
    to: usize,
) -> Result<(), AllocError>
    requires order { from ≤ to }
    requires inside { to ≤ length rows.now.items }
    ensures { OnOk result (placed_rows.new.items ≡ placed_rows.old.items
        ++ rows_along source 0 (rows_between (map carried_row rows.now.items) from to)) }
{
    let mut first: usize = 0;
    for i in from..to {
        let row = item_at(rows, i);
        let cells = row.cells();
        let count = cells.len();
        let row_there = row.with_origin(Some(Origin { source, first }))?;
        placed_rows.push(row_there)?;
        // For the prover: the cells of a block are those of its chain, so the sum does not overflow.
        match first.checked_add(count) {
            Some(next) => first = next,
            None => return Err(AllocError),
        }
    }
    Ok(())
}

/// Returns the lines `from..to` of a text with their origins: the cells of the blocks are in the chains numbered from `number`
/// on.
pub(crate) fn rows_with_origins<K: Drop>(
    alloc: Global,
    rows: &GapList<Row<K>>,
    from: usize,
    to: usize,
    number: usize,
    blocks: &[Block],
) -> Result<Vec<CarriedRow<K>>, AllocError>
    requires rise { BlocksRise from blocks.now to }
    requires inside { to ≤ length rows.now.items }
    requires numbers { number + length blocks.now ≤ usize.MAX }
    ensures { IfOk result (λ placed_rows. placed_rows.items
        ≡ rows_until (map carried_row rows.now.items) from to number blocks.now) }
{
    let mut placed_rows = Vec::new(alloc);
    let mut at = from;
    for i in 0..blocks.len() {
        let block = &blocks[i];
        append_without_origin(&mut placed_rows, rows, at, block.from)?;
        append_block(&mut placed_rows, rows, number + i, block.from, block.to)?;
        at = block.to;
    }
    append_without_origin(&mut placed_rows, rows, at, to)?;
    Ok(placed_rows)
}
