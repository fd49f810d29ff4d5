//! The fold over bars, its states and its items, by `abc_bars`.

ghost use Rattle.std.specs.Prelude.{◌≡◌, All, IfOk};
ghost use Rattle.std.specs.Option.{option_copied};
ghost use Rattle.tests_surface.specs.Bars.{no_defaults, defaults_of, opening_after, IsItem, viewed_tones, same_defaults};
ghost use Rattle.tests_surface.specs.Bars.{bar_steps};

use abc_bars::{
    BarFold, BarLine, Cell, Defaults, Entry, FaultCode, Fold, Grains, Item, ItemText, Items,
    LocalFault, Meter, Reach, Tones, TonesView, TuneMeter, TuneProgram, TuneTempo, UnitLength,
    Work,
};
use std::alloc::{AllocError, Global};

/// Takes a step over a cell.
pub fn bar_step(
    alloc: Global,
    state: &Entry,
    cell: &Cell,
    work: &mut Work,
) -> Result<(Entry, Items), AllocError>
    ensures state { IfOk result (λ made. made.0 ≡ bar_steps.next state.now cell.now) }
    ensures items { IfOk result (λ made. made.1 ≡ bar_steps.gives state.now cell.now) }
{
    BarFold.step(alloc, state, cell, work)
}

/// Returns the state in which a file header begins.
pub fn file_header(alloc: Global) -> Entry
    ensures value { result ≡ Entry.FileHeader no_defaults }
{
    Entry::header(alloc)
}

/// Returns the state in which a tune begins.
pub fn tune(alloc: Global, after: Option<&Entry>) -> Entry
    ensures value { result ≡ opening_after (option_copied after.entry) }
{
    Entry::tune(alloc, after)
}

/// Returns the values in a file header.
pub fn values_of(entry: &Entry) -> Defaults
    ensures value { result ≡ defaults_of entry.now }
{
    entry.defaults()
}

/// Returns the meter, the unit, the tempo, the program and the reach of a file header.
pub fn parts_of(
    defaults: Defaults,
) -> (
    Option<TuneMeter>,
    Option<UnitLength>,
    Option<TuneTempo>,
    Option<TuneProgram>,
    Reach,
) {
    (
        defaults.meter,
        defaults.unit,
        defaults.tempo,
        defaults.program,
        defaults.reach,
    )
}

/// The values of file headers compare by their definition.
pub fn values_compare()
    ensures value { (a b : Defaults) → ⟦<Defaults as PartialEq>⟧.eq a b ≡ same_defaults a b }
{}

/// Returns the items and the faults of a cell.
pub fn parts_of_items(items: &Items) -> (&[Item], &[LocalFault])
    ensures items { result.0.now ≡ items.now.items }
    ensures range { All IsItem result.0.now }
{
    (items.items(), items.faults())
}

/// Returns the column and the code of a fault.
pub fn parts_of_fault(fault: LocalFault) -> (u32, FaultCode) {
    fault
}

/// Borrows the tones.
pub fn borrow_tones(tones: &Tones) -> TonesView<'_>
    ensures value { viewed_tones result ≡ tones.now }
{
    tones.view()
}

/// Returns the key of a single tone, and none of a list of tones.
pub fn key_of(view: TonesView<'_>) -> Option<u8> {
    match view {
        TonesView::One(tone) => tone.key,
        TonesView::List(_) => None,
    }
}

/// Returns how long an item takes, if it takes time.
pub fn length_of(item: &Item) -> Option<Grains> {
    match item {
        Item::Tone { length, .. } | Item::Rest { length, .. } => Some(*length),
        Item::Number(_)
        | Item::Bar(_)
        | Item::Ending(_)
        | Item::Section(_)
        | Item::Tempo { .. }
        | Item::Meter { .. }
        | Item::Key { .. }
        | Item::Voice { .. }
        | Item::Program { .. }
        | Item::Title(_)
        | Item::Order(_) => None,
    }
}

/// Returns the bar line that an item is.
pub fn bar_of(item: &Item) -> Option<BarLine> {
    match item {
        Item::Bar(bar) => Some(*bar),
        _ => None,
    }
}

/// Returns the meter that an item sets.
pub fn meter_of(item: &Item) -> Option<Meter> {
    match item {
        Item::Meter { meter, .. } => *meter,
        _ => None,
    }
}

/// Returns the title that an item says.
pub fn title_of(item: &Item) -> Option<&ItemText> {
    match item {
        Item::Title(text) => Some(text),
        _ => None,
    }
}
