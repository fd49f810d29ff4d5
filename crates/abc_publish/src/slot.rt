//! What is known of the file of one reference number, and the job for it that is under way.

ghost use Rattle.std.specs.Prelude.{◌≡◌, None, Some, is_some, option_copied};
ghost use Rattle.abc_publish.specs.Publisher.{differs, slot_view};

use abc_text::{Sequence, Snapshot};
use std::marker::Model;

/// What is known of the file of a number: its bytes; or nothing, since a job for it failed.
#[derive(Drop)]
pub enum Stored {
    Known(Sequence<u8>),
    Unknown,
}

/// What the directory holds for a number, and a note of what the job for it carries if one is under way.
#[derive(Drop)]
pub struct Slot {
    stored: Option<Stored>,
    under_way: Option<Snapshot<Option<Sequence<u8>>>>,
}

impl Model for Slot {
    ghost use Rattle.std.specs.Prelude.{option_map};
    ghost use Rattle.abc_publish.specs.Publisher.{SlotView, slot_view};

    ghost Value = { SlotView };

    ghost view = { λ s. slot_view s.stored (option_map (λ note. note.value) s.under_way) };
}

impl Slot {
    /// No file, and a job that carries these bytes.
    pub fn with_job(bytes: &Option<Sequence<u8>>) -> Slot
        ensures { result ≡ slot_view None (Some bytes.now) }
    {
        Slot {
            stored: None,
            under_way: Some(Snapshot::of(bytes)),
        }
    }

    /// Returns the file of a job that has ended, and no job.
    pub fn without_job(stored: Stored) -> Slot
        ensures { result ≡ slot_view (Some stored) None }
    {
        Slot {
            stored: Some(stored),
            under_way: None,
        }
    }

    /// Notes a job that carries these bytes.
    pub fn begin(&mut self, bytes: &Option<Sequence<u8>>)
        ensures { self.new ≡ slot_view self.old.stored (Some bytes.now) }
    {
        self.under_way = Some(Snapshot::of(bytes));
    }

    /// Whether a job is under way.
    pub fn is_under_way(&self) -> bool
        ensures { result ≡ is_some self.now.job_bytes }
    {
        self.under_way.is_some()
    }

    /// Whether what is stored differs from a file, or is unknown.
    pub fn differs(&self, file: Option<&[u8]>) -> bool
        ensures { result ≡ differs self.now.stored (option_copied file.entry) }
    {
        match (&self.stored, file) {
            (None, file) => file.is_some(),
            (Some(Stored::Known(bytes)), Some(file)) => bytes.as_slice() != file,
            (Some(_), _) => true,
        }
    }
}
