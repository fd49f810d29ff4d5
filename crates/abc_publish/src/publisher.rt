//! A directory of MIDI files that is brought up to date.

ghost use Rattle.std.specs.Prelude.{◌≡◌, ◌↔◌, ℕ, ◌==◌, ◌≤◌, ◌<◌, ⊤, true, false, None, Some, IfSome, All, is_some, option_copied};
ghost use Rattle.std.specs.Prelude.{Contains, IfOk, IsOk, IsTrue, MatchOption, OnErr, OnOk};
ghost use Rattle.std.specs.List.Sorted.{IsStrictlyIncreasing};
ghost use Rattle.abc_live_session.specs.Session.{book_in};
ghost use Rattle.abc_publish.specs.Publisher.{with_job, without_job, is_pending, is_wanted, maps_of, publishing_of, slot_at};
ghost use Rattle.abc_publish.specs.Publisher.{has_slot_or_file, stored_as, HasBegun, HasNone, IsNext, IsNextJob, IsSettled};
ghost use Rattle.abc_publish.specs.declared.slot.Stored.TheVariants.{Unknown};

use crate::job::Job;
use crate::slot::{Slot, Stored};
use abc_live_session::LiveSession;
use abc_text::Sequence;
use abc_tune_compiler::Compiler;
use std::alloc::{AllocError, Global};
use std::collections::BTreeMap;
use std::marker::Model;

/// A directory with the file of each reference number, as the jobs that have ended left it, and the jobs that are under
/// way. Contracts read both by `maps_of`, as maps from numbers; they see a list of slots, and several lists may have
/// the same maps.
#[derive(Drop)]
pub struct Publisher {
    alloc: Global,
    slots: BTreeMap<u32, Slot>,
}

impl Model for Publisher {
    ghost use Rattle.abc_publish.specs.Publisher.{Slots};

    ghost Value = { Slots };

    ghost view = { λ p. p.slots.entries };
}

impl Publisher {
    /// Returns a publisher of a directory in which there is no file and none is unknown, with no job under way. It allocates
    /// nothing yet, so it always succeeds.
    pub fn new(alloc: Global) -> Result<Publisher, AllocError>
        ensures succeeds { IsOk result }
        ensures empty { IfOk result (λ p. maps_of p ≡ publishing_of (λ _. None) (λ _. None)) }
    {
        Ok(Publisher {
            alloc,
            slots: BTreeMap::new(alloc),
        })
    }

    /// Returns a job for the least pending number that has none under way; None if there is no such number. An error changes
    /// nothing. The memory that `done` and `failed` need is allocated here.
    pub fn take<C: Compiler>(&mut self, session: &LiveSession<C>) -> Result<Option<Job>, AllocError>
        ensures job { IfOk result (IsNextJob (maps_of self.old) (book_in C.steps C.rules session.now).files 0) }
        ensures after { IfOk result (HasBegun self.old self.new) }
        ensures unchanged { OnErr result (self.new ≡ self.old) }
    {
        self.take_from(session, 0)
    }

    /// Returns the same for the numbers from `from` on, for a caller who goes on after the number of the last job. It returns
    /// an error if an allocation fails.
    pub fn take_from<C: Compiler>(
        &mut self,
        session: &LiveSession<C>,
        from: u32,
    ) -> Result<Option<Job>, AllocError>
        ensures job { IfOk result (IsNextJob (maps_of self.old) (book_in C.steps C.rules session.now).files from) }
        ensures after { IfOk result (HasBegun self.old self.new) }
        ensures unchanged { OnErr result (self.new ≡ self.old) }
    {
        match self.next_wanted(session, from) {
            Some(number) => {
                let job = self.begin(number, session.output(number))?;
                Ok(Some(job))
            }
            None => Ok(None),
        }
    }

    /// Ends a job whose file was written, or removed. The job is one of this publisher that is still under way. It
    /// allocates nothing.
    pub fn done(&mut self, job: Job)
        requires { (maps_of self.old).jobs job.number ≡ Some job.bytes }
        ensures { maps_of self.new ≡ without_job (maps_of self.old) job.number (stored_as job.bytes) }
    {
        let Job { number, bytes } = job;
        match bytes {
            Some(bytes) => self.store(number, Stored::Known(bytes)),
            None => {
                let _ = self.slots.remove(&number);
            }
        }
    }

    /// Ends a job that left an unknown file in the directory. The job is one of this publisher that is still under way.
    /// It allocates nothing.
    pub fn failed(&mut self, job: Job)
        requires { (maps_of self.old).jobs job.number ≡ Some job.bytes }
        ensures { maps_of self.new ≡ without_job (maps_of self.old) job.number (Some Unknown) }
    {
        let Job { number, bytes: _ } = job;
        self.store(number, Stored::Unknown);
    }

    /// Whether the directory differs from the session at a number, or is unknown there.
    pub fn is_pending<C: Compiler>(&self, number: u32, session: &LiveSession<C>) -> bool
        ensures { result ≡ is_pending (maps_of self.now).directory (book_in C.steps C.rules session.now).files number }
    {
        let file = session.output(number);
        match self.slots.get(&number) {
            Some(slot) => slot.differs(file),
            None => file.is_some(),
        }
    }

    /// Whether no number is pending and no job is under way.
    pub fn settled<C: Compiler>(&self, session: &LiveSession<C>) -> bool
        ensures { IsTrue result ↔ IsSettled (maps_of self.now) (book_in C.steps C.rules session.now).files }
    {
        self.is_idle() && self.next_wanted(session, 0).is_none()
    }

    /// Whether no job is under way.
    fn is_idle(&self) -> bool
        ensures { IsTrue result ↔ ((n : ℕ) → (maps_of self.now).jobs n ≡ None) }
    {
        self.slots.iter().all(|(_, slot)| !slot.is_under_way())
    }

    /// Whether a number is pending and has no job under way.
    fn is_wanted<C: Compiler>(&self, number: u32, session: &LiveSession<C>) -> bool
        ensures { result ≡ is_wanted (maps_of self.now) (book_in C.steps C.rules session.now).files number }
    {
        let under_way = match self.slots.get(&number) {
            Some(slot) => slot.is_under_way(),
            None => false,
        };
        self.is_pending(number, session) && !under_way
    }

    /// Returns the least number from another one on that is pending and has no job under way.
    fn next_wanted<C: Compiler>(&self, session: &LiveSession<C>, from: u32) -> Option<u32>
        ensures { let files = (book_in C.steps C.rules session.now).files in MatchOption result
            (HasNone (maps_of self.now) files from) (IsNext (maps_of self.now) files from) }
    {
        let mut at = from;
        while let Some(number) = self.next_number(session, at) {
            if self.is_wanted(number, session) {
                return Some(number);
            }
            at = number.checked_add(1)?;
        }
        None
    }

    /// Returns the least number from another one on that has a slot or a file.
    fn next_number<C: Compiler>(&self, session: &LiveSession<C>, at: u32) -> Option<u32>
        ensures from { IfSome result (λ number. at ≤ number) }
        ensures file { let files = (book_in C.steps C.rules session.now).files in
            IfSome result (λ number. has_slot_or_file self.now files number ≡ true) }
        ensures none { let files = (book_in C.steps C.rules session.now).files in (n : ℕ) → at ≤ n
            → MatchOption result ⊤ (λ number. n < number) → is_wanted (maps_of self.now) files n ≡ false }
    {
        match (self.next_slot(at), next_in(session.numbers(), at)) {
            (Some(slot), Some(file)) => Some(slot.min(file)),
            (slot, None) => slot,
            (None, file) => file,
        }
    }

    /// Returns the least number from another one on that has a slot.
    fn next_slot(&self, at: u32) -> Option<u32>
        ensures from { IfSome result (λ number. at ≤ number) }
        ensures slot { IfSome result (λ number. is_some (slot_at self.now number) ≡ true) }
        ensures none { (n : ℕ) → at ≤ n → MatchOption result ⊤ (λ number. n < number) → slot_at self.now n ≡ None }
    {
        let (number, _) = self.slots.range(at..).next()?;
        Some(*number)
    }

    /// Begins a job for a number.
    fn begin(&mut self, number: u32, file: Option<&[u8]>) -> Result<Job, AllocError>
        ensures job { IfOk result (λ j. (j.number ≡ number) × (j.bytes ≡ option_copied file.entry)) }
        ensures after { IfOk result (λ j. maps_of self.new ≡ with_job (maps_of self.old) number (option_copied file.entry)) }
        ensures unchanged { OnErr result (self.new ≡ self.old) }
    {
        let bytes = match file {
            Some(bytes) => Some(Sequence::from_slice(self.alloc, bytes)?),
            None => None,
        };
        self.note(number, &bytes)?;
        Ok(Job { number, bytes })
    }

    /// Notes a job for a number.
    fn note(&mut self, number: u32, bytes: &Option<Sequence<u8>>) -> Result<(), AllocError>
        ensures after { OnOk result (maps_of self.new ≡ with_job (maps_of self.old) number bytes.now) }
        ensures unchanged { OnErr result (self.new ≡ self.old) }
    {
        if let Some(slot) = self.slots.get_mut(&number) {
            slot.begin(bytes);
            return Ok(());
        }
        self.slots.insert(number, Slot::with_job(bytes))?;
        Ok(())
    }

    /// Stores what is known of a number whose job has ended. Its slot is there, so nothing is allocated.
    fn store(&mut self, number: u32, stored: Stored)
        requires { is_some (slot_at self.old number) ≡ true }
        ensures { maps_of self.new ≡ without_job (maps_of self.old) number (Some stored) }
    {
        let _ = self.slots.insert(number, Slot::without_job(stored));
    }
}

/// Returns the least of rising numbers from another one on.
fn next_in(numbers: &[u32], at: u32) -> Option<u32>
    requires { IsStrictlyIncreasing numbers.now }
    ensures from { IfSome result (λ number. at ≤ number) }
    ensures member { IfSome result (λ number. Contains numbers.now number) }
    ensures none { (n : ℕ) → at ≤ n → MatchOption result ⊤ (λ number. n < number) → All (λ m. (m == n) ≡ false) numbers.now }
{
    let from = numbers.partition_point(|number| *number < at);
    numbers.get(from).copied()
}
