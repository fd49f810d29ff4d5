//! A store in memory that shows its contents, and fails at some of its calls.

ghost use Rattle.std.specs.Prelude.{◌≡◌, ◌∷◌, Some, IsErr, OnErr, OnOk};
ghost use Rattle.abc2midi_live.specs.Storing.{store_view};
ghost use Rattle.abc_fold.specs.Work.{raised};
ghost use Rattle.tests.specs.Shelf.{contents_of};

use crate::failing::Failing;
use abc_text::Sequence;
use abc2midi_live::{Store, StoreFault};
use std::alloc::{AllocError, Global};
use std::collections::VecDeque;

/// The changes, newest first: each name, and the bytes if it was put.
#[derive(Drop)]
pub struct Shelf {
    alloc: Global,
    changes: VecDeque<(Sequence<u8>, Option<Sequence<u8>>)>,
    failing: Failing,
    calls: u64,
    failures: u64,
}

impl Shelf {
    /// An empty store of which these calls fail.
    pub fn new(alloc: Global, failing: Failing) -> Shelf {
        Shelf {
            alloc,
            changes: VecDeque::new(alloc),
            failing,
            calls: 0,
            failures: 0,
        }
    }

    /// Returns the bytes under a name.
    pub fn get(&self, name: &str) -> Option<&[u8]> {
        for (known, bytes) in &self.changes {
            if known.as_slice() == name.as_bytes() {
                return match bytes {
                    Some(bytes) => Some(bytes.as_slice()),
                    None => None,
                };
            }
        }
        None
    }

    /// Notes that a name was put or removed.
    fn note(&mut self, name: &str, bytes: Option<Sequence<u8>>) -> Result<(), AllocError>
        ensures ok { OnOk result (self.new.changes.items ≡ (name.now, bytes) ∷ self.old.changes.items) }
        ensures unchanged { OnErr result (self.new.changes.items ≡ self.old.changes.items) }
        ensures counted { (self.new.failures ≡ self.old.failures) × (self.new.calls ≡ self.old.calls) }
    {
        let name = Sequence::from_slice(self.alloc, name.as_bytes())?;
        self.changes.push_front((name, bytes))?;
        Ok(())
    }

    fn note_bytes(&mut self, name: &str, bytes: &[u8]) -> Result<(), AllocError>
        ensures ok { OnOk result (self.new.changes.items ≡ (name.now, Some bytes.now) ∷ self.old.changes.items) }
        ensures unchanged { OnErr result (self.new.changes.items ≡ self.old.changes.items) }
        ensures counted { (self.new.failures ≡ self.old.failures) × (self.new.calls ≡ self.old.calls) }
    {
        let bytes = Sequence::from_slice(self.alloc, bytes)?;
        self.note(name, Some(bytes))
    }

    /// Counts a failure, and answers it.
    #[tactic(auto, using(abc2midi_live::proofs::Counts::raised_within))]
    fn fail(&mut self) -> Result<(), StoreFault>
        ensures failures { self.new.failures ≡ raised self.old.failures 1 }
        ensures calls { self.new.calls ≡ self.old.calls }
        ensures changes { self.new.changes ≡ self.old.changes }
        ensures fault { IsErr result }
    {
        self.failures = self.failures.saturating_add(1);
        Err(StoreFault)
    }

    /// Counts a call. Whether it fails.
    #[tactic(auto, using(abc2midi_live::proofs::Counts::raised_within))]
    fn is_failing(&mut self) -> bool
        ensures calls { self.new.calls ≡ raised self.old.calls 1 }
        ensures failures { self.new.failures ≡ self.old.failures }
        ensures changes { self.new.changes ≡ self.old.changes }
    {
        self.calls = self.calls.saturating_add(1);
        self.failing.at(self.calls)
    }
}

#[tactic(auto, using(abc2midi_live::proofs::Counts::raised_none))]
impl Store for Shelf {
    ghost seen = { λ s. store_view s.failures s.calls (Some (contents_of s.changes.items)) };

    fn put(&mut self, name: &str, bytes: &[u8]) -> Result<(), StoreFault> {
        if self.is_failing() {
            return self.fail();
        }
        match self.note_bytes(name, bytes) {
            Ok(()) => Ok(()),
            Err(_) => self.fail(),
        }
    }

    fn remove(&mut self, name: &str) -> Result<(), StoreFault> {
        if self.is_failing() {
            return self.fail();
        }
        match self.note(name, None) {
            Ok(()) => Ok(()),
            Err(_) => self.fail(),
        }
    }
}
