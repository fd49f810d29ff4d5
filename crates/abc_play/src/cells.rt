//! The cells of a tune in the lines of its text, and what they give.

ghost use Rattle.std.specs.Prelude.{◌≡◌, ◌+◌, ◌≤◌, [], ◌++◌, length, map, slice_get, IfOk, OnOk};
ghost use Rattle.std.specs.List.{cons_option};
ghost use Rattle.abc_lines.specs.declared.limits.TheConstants.{MOST_LINES};
ghost use Rattle.abc_live_text.specs.KeptText.{AreRows};
ghost use Rattle.abc_play.specs.Places.{placed_cell, row_places};
ghost use Rattle.abc_tune.specs.Abc.{rules_of_abc};
ghost use Rattle.abc_tune_compiler.specs.Placed.{placed_at};
ghost use Rattle.abc_tune_compiler.specs.Tune.{cells_in};

use abc_bars_items::Items;
use abc_book::Block;
use abc_fold::Chain;
use abc_live_text::KeptText;
use abc_scan::Cell;
use abc_tune::Abc;
use std::alloc::{AllocError, Global};

/// A cell of a tune, and its line, counted from 1.
#[derive(Clone, Copy)]
pub(crate) struct LineCell<'a> {
    pub line: u32,
    pub cell: &'a Cell,
}

/// Appends the cells of a line.
fn put_cells<'a>(
    cells: &mut Vec<LineCell<'a>>,
    line: u32,
    row: &'a [Cell],
) -> Result<(), AllocError>
    ensures { OnOk result (map placed_cell cells.new.items ≡ map placed_cell cells.old.items ++ map (placed_at line) row.entry.now) }
{
    for cell in row {
        cells.push(LineCell { line, cell })?;
    }
    Ok(())
}

/// Appends the cells of the line at an index, if there is one.
#[tactic(auto, using(crate::proofs::InText::row_within))]
fn put_row<'a>(
    cells: &mut Vec<LineCell<'a>>,
    text: &'a KeptText<Abc>,
    at: usize,
) -> Result<(), AllocError>
    requires { length text.now.rows.items ≤ MOST_LINES }
    ensures { OnOk result (map placed_cell cells.new.items
        ≡ map placed_cell cells.old.items ++ row_places (at + 1) (slice_get text.entry.now.rows.items at)) }
{
    match text.row(at) {
        Some(row) => put_cells(cells, at as u32 + 1, row.cells()),
        None => Ok(()),
    }
}

/// Returns the cells of a tune.
pub(crate) fn cells_of<'a>(
    alloc: Global,
    text: &'a KeptText<Abc>,
    block: Block,
) -> Result<Vec<LineCell<'a>>, AllocError>
    requires rows { AreRows rules_of_abc text.now.lines.text text.now.rows.items }
    requires few { length text.now.lines.text ≤ MOST_LINES }
    ensures { IfOk result (λ cells. map placed_cell cells.items ≡ cells_in rules_of_abc text.entry.now.lines.text block) }
{
    let mut cells = Vec::new(alloc);
    for at in block.from..block.to {
        put_row(&mut cells, text, at)?;
    }
    Ok(cells)
}

/// Appends what the cell of a chain at an index gives, if there is one.
fn put_given<'a>(
    given: &mut Vec<&'a Items>,
    chain: &'a Chain<Abc>,
    at: usize,
) -> Result<(), AllocError>
    ensures { OnOk result (map (λ one. one.now) given.new.items
        ≡ map (λ one. one.now) given.old.items ++ cons_option (slice_get chain.entry.now.items at) []) }
{
    match chain.items(at) {
        Some(one) => {
            given.push(one)?;
            Ok(())
        }
        None => Ok(()),
    }
}

/// Returns what the cells of a chain give.
pub(crate) fn items_of_cells<'a>(
    alloc: Global,
    chain: &'a Chain<Abc>,
) -> Result<Vec<&'a Items>, AllocError>
    requires { length chain.now.items ≤ length chain.now.cells }
    ensures { IfOk result (λ given. map (λ one. one.now) given.items ≡ chain.entry.now.items) }
{
    let mut given = Vec::with_capacity(alloc, chain.len())?;
    for at in 0..chain.len() {
        put_given(&mut given, chain, at)?;
    }
    Ok(given)
}
