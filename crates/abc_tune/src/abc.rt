//! The compiler of ABC.

ghost use Rattle.std.specs.Prelude.{◌≡◌, option_copied};
ghost use Rattle.abc_bars_body.specs.SameEntry.{bars_resumable};
ghost use Rattle.abc_bars.specs.Titles.{title_said};
ghost use Rattle.abc_tune.specs.Abc.{rules_of_abc, number_of, first_value, steps_of_abc};
ghost use Rattle.abc_tune.specs.Lawful.{abc_lawful, abc_eq_is_sound};

use crate::built::build;
use abc_bars::BarFold;
use abc_bars_body::Entry;
use abc_bars_header::Defaults;
use abc_bars_items::{Item, Items};
use abc_fields::FaultCode;
use abc_fold::{Fold, Work};
use abc_scan::{Cell, LineClass, cells_of_line, class_of};
use abc_tune_compiler::{Built, Compiler};
use std::alloc::{AllocError, Global};

/// The compiler of tunes in ABC.
#[derive(Clone, Copy, Debug, Default, Drop)]
pub struct Abc;

impl Fold for Abc {
    type State = Entry;

    type Cell = Cell;

    type Items = Items;

    type Work = Work;

    ghost steps = { λ _. steps_of_abc };

    ghost resumable = { λ _. bars_resumable };

    fn step(
        &self,
        alloc: Global,
        state: &Entry,
        cell: &Cell,
        work: &mut Work,
    ) -> Result<(Entry, Items), AllocError> {
        BarFold.step(alloc, state, cell, work)
    }

    fn same(a: &Entry, b: &Entry) -> bool {
        BarFold::same(a, b)
    }

    fn copy_state(alloc: Global, state: &Entry) -> Result<Entry, AllocError> {
        BarFold::copy_state(alloc, state)
    }

    fn copy_cell(alloc: Global, cell: &Cell) -> Result<Cell, AllocError> {
        BarFold::copy_cell(alloc, cell)
    }

    fn copy_items(alloc: Global, items: &Items) -> Result<Items, AllocError> {
        BarFold::copy_items(alloc, items)
    }
}

/// Returns the first reference number among items.
fn number_among(items: &[Item]) -> Option<u32>
    ensures { result ≡ first_value number_of items.now }
{
    for item in items {
        if let Item::Number(number) = item {
            return Some(*number);
        }
    }
    None
}

/// Returns the first title among items.
fn title_among<'a>(items: &'a [Item]) -> Option<&'a [u8]>
    ensures { option_copied result ≡ first_value title_said items.now }
{
    for item in items {
        if let Item::Title(text) = item {
            return Some(text.as_slice());
        }
    }
    None
}

impl Compiler for Abc {
    type Defaults = Defaults;

    ghost rules = { λ _. rules_of_abc };

    ghost lawful = { λ _. abc_lawful };

    ghost eq_is_sound = { abc_eq_is_sound };

    fn class(&self, line: &[u8]) -> LineClass {
        class_of(line)
    }

    fn cells(&self, alloc: Global, line: &[u8], work: &mut Work) -> Result<Vec<Cell>, AllocError> {
        cells_of_line(alloc, line, work)
    }

    fn header(&self, alloc: Global) -> Entry {
        Entry::header(alloc)
    }

    fn tune(&self, alloc: Global, after: Option<&Entry>) -> Entry {
        Entry::tune(alloc, after)
    }

    fn defaults(&self, after: &Entry) -> Defaults {
        after.defaults()
    }

    fn number(&self, items: &Items) -> Option<u32> {
        number_among(items.items())
    }

    fn title<'a>(&self, items: &'a Items) -> Option<&'a [u8]> {
        title_among(items.items())
    }

    fn faults<'a>(&self, items: &'a Items) -> &'a [(u32, FaultCode)] {
        items.faults()
    }

    fn build(&self, alloc: Global, items: &[Items], work: &mut Work) -> Result<Built, AllocError> {
        build(alloc, items, work)
    }
}
