//! The faults of a tune as a whole.

ghost use Rattle.std.specs.Prelude.{◌≡◌, ◌++◌, IfOk, OnOk};
ghost use Rattle.std.specs.List.{list_any};
ghost use Rattle.abc_tune.specs.WholeFaults.{is_opening_key, lacks_key, out_after, opens_out_of_range, fault_if, faults_with};
ghost use Rattle.abc_tune.specs.WholeFaults.{is_too_long_fault, AreRisingFrom};
ghost use Rattle.abc_voices.specs.Layout.{items_in};
ghost use Rattle.abc_voices.specs.Opening.{after_all};

use abc_bars_items::{Item, Items};
use abc_fields::FaultCode;
use abc_text::Sequence;
use std::alloc::{AllocError, Global};

/// Whether an item is the key of the K: that ends a header, accepted or not.
fn is_opening_key(item: &Item) -> bool
    ensures { result ≡ is_opening_key item.now }
{
    match item {
        Item::Key { opening, .. } => *opening,
        _ => false,
    }
}

/// Whether one of a cell's items is the key of a K: that ends the header.
fn has_opening_key(items: &[Item]) -> bool
    ensures { result ≡ list_any is_opening_key items.now }
{
    items.iter().any(|item| is_opening_key(item))
}

/// Whether a cell of a tune ends its header by a K:.
fn has_key(cells: &[Items]) -> bool
    ensures { result ≡ list_any (λ cell. list_any is_opening_key cell.items) cells.now }
{
    cells.iter().any(|cell| has_opening_key(cell.items()))
}

/// Whether the header of a tune has no K:.
#[tactic(auto, using(crate::proofs::WholeFaults::lacks_key_in_cells))]
fn lacks_key(cells: &[Items]) -> bool
    ensures { result ≡ lacks_key (items_in cells.now) }
{
    !has_key(cells)
}

/// Whether the tempo with which a tune opens is out of range after the items of a cell.
fn out_after_items(before: bool, items: &[Item]) -> bool
    ensures { result ≡ after_all out_after before items.now }
{
    let mut out_of_range = before;
    for item in items {
        if let Item::Tempo {
            opening: true,
            out,
            ..
        } = item
        {
            out_of_range = *out;
        }
    }
    out_of_range
}

/// Whether the tempo with which a tune opens is out of range.
fn opens_out_of_range(cells: &[Items]) -> bool
    ensures { result ≡ opens_out_of_range (items_in cells.now) }
{
    let mut out_of_range = false;
    for cell in cells {
        out_of_range = out_after_items(out_of_range, cell.items());
    }
    out_of_range
}

/// Appends a fault if it is there.
fn put_if(faults: &mut Sequence<FaultCode>, there: bool, fault: FaultCode) -> Result<(), AllocError>
    ensures { OnOk result (faults.new ≡ faults.old ++ fault_if there fault) }
{
    if there {
        faults.push(fault)?;
    }
    Ok(())
}

/// Returns the faults of a tune, by whether a part is unknown, voices are uneven and the tune is too long.
#[tactic(auto, using(crate::proofs::WholeFaults::fault_lemmas))]
pub(crate) fn faults_with(
    alloc: Global,
    cells: &[Items],
    unknown: bool,
    uneven: bool,
    long: bool,
) -> Result<Sequence<FaultCode>, AllocError>
    ensures value { IfOk result (λ faults. faults ≡ faults_with (items_in cells.now) unknown uneven long) }
    ensures long { IfOk result (λ faults. list_any is_too_long_fault faults ≡ long) }
    ensures rising { IfOk result (λ faults. AreRisingFrom 0 faults) }
{
    let mut faults = Sequence::new(alloc);
    put_if(&mut faults, lacks_key(cells), FaultCode::MissingKey)?;
    put_if(
        &mut faults,
        opens_out_of_range(cells),
        FaultCode::TempoRange,
    )?;
    put_if(&mut faults, unknown, FaultCode::UnknownPart)?;
    put_if(&mut faults, uneven, FaultCode::UnevenVoices)?;
    put_if(&mut faults, long, FaultCode::TuneTooLong)?;
    Ok(faults)
}
