//! The tunes of a book before a change and after it.

ghost use Rattle.std.specs.Prelude.{◌≡◌, ◌↔◌, ◌-◌, ◌<◌, Some, true, length, option_and_then, option_copied, option_map, slice_get};
ghost use Rattle.std.specs.Option.{option_eq};
ghost use Rattle.std.specs.Str.{bytes_eq};
ghost use Rattle.abc_live_index.specs.TuneChange.{IsChange, new_outputs, old_outputs};
ghost use Rattle.abc_live_index.specs.Owners.{bytes_at, claim_of, claims_of};

use crate::Output;
use crate::owners::Claim;
use abc_fold::Shared;
use abc_lines::{GapList, Replacement, SplicePatch};

/// The outputs of the tunes before a change, the tunes that others replace, and the outputs after it.
#[derive(Drop)]
pub(crate) struct TuneChange<'a> {
    pub(crate) before: &'a GapList<Shared<Output>>,
    pub(crate) splice: &'a SplicePatch<Shared<Output>>,
    pub(crate) tunes: Replacement,
}

/// Returns the file of a tune, if it has one.
fn bytes_of(output: &Output) -> Option<&[u8]>
    ensures { option_copied result ≡ output.now.built.bytes }
{
    match &output.built.bytes {
        Some(bytes) => Some(bytes.get().as_slice()),
        None => None,
    }
}

/// Returns the file of the tune at a place, if it has one.
fn bytes_at(outputs: &GapList<Shared<Output>>, place: usize) -> Option<&[u8]>
    ensures { option_copied result ≡ bytes_at outputs.now.items place }
{
    match outputs.get(place) {
        Some(output) => bytes_of(output.get()),
        None => None,
    }
}

/// Returns the file that a tune gives, if there is one.
pub(crate) fn file_of(outputs: &GapList<Shared<Output>>, owner: Option<usize>) -> Option<&[u8]>
    ensures { option_copied result ≡ option_and_then (bytes_at outputs.now.items) owner }
{
    bytes_at(outputs, owner?)
}

impl TuneChange<'_> {
    /// Returns how many tunes there are after the change.
    pub(crate) fn count(&self) -> usize
        requires { IsChange self.now }
        ensures { result ≡ length (new_outputs self.now) }
    {
        self.splice.len(self.before)
    }

    /// Returns the output of the old tune at a place.
    fn old_output(&self, place: usize) -> Option<&Output>
        ensures { option_copied result ≡ slice_get (old_outputs self.now) place }
    {
        match self.before.get(place) {
            Some(output) => Some(output.get()),
            None => None,
        }
    }

    /// Returns the output of the tune at a place after the change.
    fn new_output(&self, place: usize) -> Option<&Output>
        requires { IsChange self.now }
        ensures { option_copied result ≡ slice_get (new_outputs self.now) place }
    {
        match self.splice.get(self.before, place) {
            Some(output) => Some(output.get()),
            None => None,
        }
    }

    /// Returns the output of the tune at an index after the change.
    #[tactic(auto, using(crate::proofs::Lists::never_none))]
    pub(crate) fn new_at(&self, place: usize) -> &Output
        requires change { IsChange self.now }
        requires inside { place < length (new_outputs self.now) }
        ensures { slice_get (new_outputs self.now) place ≡ Some result.now }
    {
        match self.new_output(place) {
            Some(output) => output,
            None => unreachable!(),
        }
    }

    /// Returns the file that an old tune gives, if there is one.
    fn old_file(&self, owner: Option<usize>) -> Option<&[u8]>
        ensures { option_copied result ≡ option_and_then (bytes_at (old_outputs self.now)) owner }
    {
        file_of(self.before, owner)
    }

    /// Returns the file that a tune gives after the change, if there is one.
    fn new_file(&self, owner: Option<usize>) -> Option<&[u8]>
        requires { IsChange self.now }
        ensures { option_copied result ≡ option_and_then (bytes_at (new_outputs self.now)) owner }
    {
        bytes_of(self.new_output(owner?)?)
    }

    /// Whether the count of tunes is unchanged.
    pub(crate) fn keeps_count(&self) -> bool
        requires { IsChange self.now }
        ensures exact { (result ≡ true) ↔ (self.now.tunes.came ≡ self.now.tunes.to - self.now.tunes.from) }
    {
        self.tunes.came == self.tunes.to - self.tunes.from
    }

    /// Whether the tune at a place claims what the old one there does.
    fn keeps_claim(&self, place: usize) -> bool
        requires { IsChange self.now }
        ensures { result ≡ true → option_map claim_of (slice_get (old_outputs self.now) place)
            ≡ option_map claim_of (slice_get (new_outputs self.now) place) }
    {
        match (self.old_output(place), self.new_output(place)) {
            (Some(old), Some(new)) => Claim::of(old) == Claim::of(new),
            _ => false,
        }
    }

    /// Whether the tunes claim what the old ones do, one by one.
    pub(crate) fn keeps_claims(&self) -> bool
        requires { IsChange self.now }
        ensures { result ≡ true → claims_of (old_outputs self.now) ≡ claims_of (new_outputs self.now) }
    {
        if !self.keeps_count() {
            return false;
        }
        for place in self.tunes.from..self.tunes.to {
            if !self.keeps_claim(place) {
                return false;
            }
        }
        true
    }

    /// Whether the tune at index `new` after the change is the old one at index `old`: both are before the stretch, or
    /// both after it.
    #[tactic(auto, using(crate::proofs::Lists::same_before, crate::proofs::Lists::same_after))]
    fn keeps_tune(&self, old: usize, new: usize) -> bool
        requires { IsChange self.now }
        ensures { result ≡ true → slice_get (old_outputs self.now) old ≡ slice_get (new_outputs self.now) new }
    {
        if old < self.tunes.from {
            return new == old;
        }
        if old < self.tunes.to {
            return false;
        }
        if new < self.tunes.from || new - self.tunes.from < self.tunes.came {
            return false;
        }
        new - self.tunes.from - self.tunes.came == old - self.tunes.to
    }

    /// Whether the same tune gives a file before and after, by the places of those that do.
    pub(crate) fn keeps_owner(&self, old: Option<usize>, new: Option<usize>) -> bool
        requires { IsChange self.now }
        ensures { result ≡ true → option_and_then (bytes_at (old_outputs self.now)) old
            ≡ option_and_then (bytes_at (new_outputs self.now)) new }
    {
        match (old, new) {
            (Some(old), Some(new)) => self.keeps_tune(old, new),
            _ => false,
        }
    }

    /// Whether two tunes give the same file, the one before and the other after, or neither gives one.
    pub(crate) fn keeps_file(&self, old: Option<usize>, new: Option<usize>) -> bool
        requires { IsChange self.now }
        ensures { result ≡ option_eq bytes_eq (option_and_then (bytes_at (old_outputs self.now)) old)
            (option_and_then (bytes_at (new_outputs self.now)) new) }
    {
        self.old_file(old) == self.new_file(new)
    }
}
