//! Which tune gives the file of each number: the first of its tunes that has one.

ghost use Rattle.std.specs.Prelude.{◌≡◌, [], IfOk, OnOk, unwrap_or};
ghost use Rattle.std.specs.List.Sorted.{IsStrictlyIncreasing};
ghost use Rattle.std.specs.Map.{keys_of};
ghost use Rattle.abc_live_index.specs.TuneChange.{IsChange, new_outputs};
ghost use Rattle.abc_live_index.specs.Owners.{claim_of, owners_with_claim, owner_at, owners_of};

use crate::Output;
use crate::tune_change::TuneChange;
use std::alloc::{AllocError, Global};
use std::collections::BTreeMap;
use std::marker::Model;

/// What a tune claims: its number, if it has a file.
#[derive(Clone, Copy, Debug, PartialEq, Eq)]
pub(crate) struct Claim {
    pub(crate) number: u32,
    pub(crate) has_file: bool,
}

impl Claim {
    /// What a tune claims.
    pub(crate) fn of(output: &Output) -> Claim
        ensures { result ≡ claim_of output.now }
    {
        Claim {
            number: output.number,
            has_file: output.built.bytes.is_some(),
        }
    }
}

/// The numbers that have a file, each with the place of the tune that gives it. Contracts see them as a list.
#[derive(Drop)]
pub(crate) struct Owners {
    places: BTreeMap<u32, usize>,
    numbers: Vec<u32>,
}

impl Model for Owners {
    ghost use Rattle.std.specs.Prelude.{◌≡◌, List, ℕ};
    ghost use Rattle.std.specs.List.Sorted.{IsStrictlyIncreasing};
    ghost use Rattle.std.specs.Map.{keys_of};

    ghost Value = { List (ℕ × ℕ) };

    ghost view = { λ o. o.places.entries };

    ghost invariant = { λ o. (o.numbers.items ≡ keys_of o.places.entries) × IsStrictlyIncreasing o.numbers.items };
}

/// Gives the number that a tune claims to the tune at a place, unless another one owns it.
#[tactic(auto, using(crate::proofs::Places::kept, crate::proofs::Places::taken))]
fn put_claim(
    places: &mut BTreeMap<u32, usize>,
    claim: Claim,
    place: usize,
) -> Result<(), AllocError>
    ensures { OnOk result (places.new.entries ≡ owners_with_claim places.old.entries claim place) }
{
    if !claim.has_file {
        return Ok(());
    }
    if places.contains_key(&claim.number) {
        return Ok(());
    }
    places.insert(claim.number, place)?;
    Ok(())
}

/// Returns the places of the tunes that give the files after a change.
fn places_after(alloc: Global, change: &TuneChange) -> Result<BTreeMap<u32, usize>, AllocError>
    requires { IsChange change.now }
    ensures { IfOk result (λ places. places.entries ≡ owners_of (new_outputs change.now)) }
{
    let mut places = BTreeMap::new(alloc);
    for place in 0..change.count() {
        put_claim(&mut places, Claim::of(change.new_at(place)), place)?;
    }
    Ok(places)
}

impl Owners {
    /// Returns the owners among no tunes.
    pub(crate) fn new(alloc: Global) -> Owners
        ensures { result ≡ [] }
    {
        Owners {
            places: BTreeMap::new(alloc),
            numbers: Vec::new(alloc),
        }
    }

    /// Returns the owners after a change.
    pub(crate) fn after(alloc: Global, change: &TuneChange) -> Result<Owners, AllocError>
        requires { IsChange change.now }
        ensures { IfOk result (λ owners. owners ≡ owners_of (new_outputs change.now)) }
    {
        let places = places_after(alloc, change)?;
        let numbers = numbers_of(alloc, &places)?;
        Ok(Owners { places, numbers })
    }

    /// Replaces the owners by others, if there are any.
    pub(crate) fn replace_by(&mut self, others: Option<Owners>)
        ensures { self.new ≡ unwrap_or others self.old }
    {
        if let Some(others) = others {
            *self = others;
        }
    }

    /// Returns the place of the tune that gives the file of a number, if it has one.
    #[tactic(auto, using(crate::proofs::Places::looked_up))]
    pub(crate) fn get(&self, number: u32) -> Option<usize>
        ensures { result ≡ owner_at self.now number }
    {
        self.places.get(&number).copied()
    }

    /// Returns the numbers that have a file, rising.
    pub(crate) fn numbers(&self) -> &[u32]
        ensures value { result.now ≡ keys_of self.now }
        ensures rise { IsStrictlyIncreasing result.now }
    {
        &self.numbers
    }
}

/// Returns the numbers that have a file, rising.
fn numbers_of(alloc: Global, places: &BTreeMap<u32, usize>) -> Result<Vec<u32>, AllocError>
    ensures value { IfOk result (λ numbers. numbers.items ≡ keys_of places.now.entries) }
    ensures rise { IfOk result (λ numbers. IsStrictlyIncreasing numbers.items) }
{
    places.keys().copied().collect(alloc)
}
