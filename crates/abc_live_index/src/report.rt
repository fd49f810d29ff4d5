//! How the files of a book differ after a change.

ghost use Rattle.std.specs.Prelude.{◌≡◌, ◌<◌, IfOk, filter, is_some, length, not};
ghost use Rattle.std.specs.List.Sorted.{IsStrictlyIncreasing};
ghost use Rattle.std.specs.Map.{keys_of};
ghost use Rattle.std.specs.Option.{option_eq};
ghost use Rattle.std.specs.Str.{bytes_eq};
ghost use Rattle.abc_live_index.specs.TuneChange.{IsChange, new_outputs, old_outputs};
ghost use Rattle.abc_live_index.specs.Outputs.{files_of};
ghost use Rattle.abc_live_index.specs.Owners.{claims_of, owner_at, owners_of};
ghost use Rattle.abc_live_index.specs.Report.{changed_number_at};
ghost use Rattle.abc_tune_compiler.specs.Files.{file_at, written_numbers};
ghost use Rattle.abc_tune_compiler.specs.Report.{Reports};

use crate::owners::Owners;
use crate::tune_change::TuneChange;
use abc_tune_compiler::{Report, sort_dedup};
use std::alloc::{AllocError, Global};

/// Returns the number that the tune at a place owns, if its file has other bytes than that of the old tune there.
fn changed_number_at(change: &TuneChange, owners: &Owners, place: usize) -> Option<u32>
    requires change { IsChange change.now }
    requires inside { place < length (new_outputs change.now) }
    ensures { result ≡ changed_number_at (old_outputs change.now) (new_outputs change.now) owners.now place }
{
    let output = change.new_at(place);
    if owners.get(output.number) != Some(place) {
        return None;
    }
    if change.keeps_file(Some(place), Some(place)) {
        return None;
    }
    Some(output.number)
}

/// Returns the numbers that tunes of the stretch own, if their files have other bytes than those of the old tunes.
fn changed_numbers(
    alloc: Global,
    change: &TuneChange,
    owners: &Owners,
) -> Result<Vec<u32>, AllocError>
    requires change { IsChange change.now }
    requires claims { claims_of (old_outputs change.now) ≡ claims_of (new_outputs change.now) }
    requires owners { owners.now ≡ owners_of (old_outputs change.now) }
    requires rise { IsStrictlyIncreasing (keys_of owners.now) }
    ensures { IfOk result (λ numbers. numbers.items ≡ written_numbers (files_of (old_outputs change.now))
        (files_of (new_outputs change.now))) }
{
    let mut found = Vec::new(alloc);
    for place in change.tunes.from..change.tunes.to {
        if let Some(number) = changed_number_at(change, owners, place) {
            found.push(number)?;
        }
    }
    sort_dedup(alloc, &found)
}

/// Returns the report of a change after which the tunes claim what the old ones did, one by one.
pub(crate) fn report_within(
    alloc: Global,
    change: &TuneChange,
    owners: &Owners,
) -> Result<Report, AllocError>
    requires change { IsChange change.now }
    requires claims { claims_of (old_outputs change.now) ≡ claims_of (new_outputs change.now) }
    requires owners { owners.now ≡ owners_of (old_outputs change.now) }
    ensures { IfOk result (Reports (files_of (old_outputs change.now)) (files_of (new_outputs change.now))) }
{
    // The numbers of owners rise.
    let _ = owners.numbers();
    Ok(Report {
        written: changed_numbers(alloc, change, owners)?,
        removed: Vec::new(alloc),
    })
}

/// Whether the file of a number differs after a change. The bytes are compared only if another tune may give them.
#[tactic(auto, using(crate::proofs::FileReports::owner_kept, crate::proofs::FileReports::not_owner_differs))]
fn differs(change: &TuneChange, before: &Owners, after: &Owners, number: u32) -> bool
    requires change { IsChange change.now }
    requires before { before.now ≡ owners_of (old_outputs change.now) }
    requires after { after.now ≡ owners_of (new_outputs change.now) }
    ensures { result ≡ not (option_eq bytes_eq (file_at (files_of (old_outputs change.now)) number)
        (file_at (files_of (new_outputs change.now)) number)) }
{
    let old = before.get(number);
    let new = after.get(number);
    if change.keeps_owner(old, new) {
        return false;
    }
    !change.keeps_file(old, new)
}

/// Returns the numbers whose file after a change is new or has other bytes.
#[tactic(auto, unfolding(abc_tune_compiler::specs::Files::written_numbers))]
fn new_or_changed_numbers(
    alloc: Global,
    change: &TuneChange,
    before: &Owners,
    after: &Owners,
    numbers: &[u32],
) -> Result<Vec<u32>, AllocError>
    requires numbers { numbers.now ≡ keys_of (files_of (new_outputs change.now)) }
    requires change { IsChange change.now }
    requires before { before.now ≡ owners_of (old_outputs change.now) }
    requires after { after.now ≡ owners_of (new_outputs change.now) }
    ensures { IfOk result (λ numbers. numbers.items ≡ written_numbers (files_of (old_outputs change.now))
        (files_of (new_outputs change.now))) }
{
    numbers
        .iter()
        .copied()
        .filter(|number| differs(change, before, after, *number))
        .collect(alloc)
}

/// Returns those of some numbers that have no owner.
fn numbers_without_owner(
    alloc: Global,
    numbers: &[u32],
    owners: &Owners,
) -> Result<Vec<u32>, AllocError>
    ensures { IfOk result (λ lost. lost.items ≡ filter (λ n. not (is_some (owner_at owners.now n))) numbers.now) }
{
    numbers
        .iter()
        .copied()
        .filter(|number| owners.get(*number).is_none())
        .collect(alloc)
}

/// Returns the report of a change after which numbers may have other owners.
pub(crate) fn report_over(
    alloc: Global,
    change: &TuneChange,
    before: &Owners,
    after: &Owners,
) -> Result<Report, AllocError>
    requires change { IsChange change.now }
    requires before { before.now ≡ owners_of (old_outputs change.now) }
    requires after { after.now ≡ owners_of (new_outputs change.now) }
    ensures { IfOk result (Reports (files_of (old_outputs change.now)) (files_of (new_outputs change.now))) }
{
    Ok(Report {
        written: new_or_changed_numbers(alloc, change, before, after, after.numbers())?,
        removed: numbers_without_owner(alloc, before.numbers(), after)?,
    })
}
