//! The state of the fold before a cell.

ghost use Rattle.std.specs.Prelude.{◌≡◌, IfOk};
ghost use Rattle.std.specs.Option.{option_copied};
ghost use Rattle.abc_bars_body.specs.Entry.{defaults_of, opening_after};
ghost use Rattle.abc_bars_header.specs.Defaults.{no_defaults};

use crate::body::Body;
use abc_bars_header::{Defaults, Header, NO_DEFAULTS};
use abc_text::Shared;
use std::alloc::{AllocError, Global};

/// The state of the fold before a cell, or after the last: all that later cells of a file header or of a tune can depend
/// on. A copy shares the state in a header or in a body, so each entry has a few words.
#[derive(Drop)]
pub enum Entry {
    /// In a file header: its values so far.
    FileHeader(Defaults),
    /// Before the first field of a tune: the file header's values.
    Opening(Defaults),
    /// In a tune's header, also if a line of music ends it.
    Header(Shared<Header>),
    /// In a tune's body.
    Body(Shared<Body>),
}

impl Entry {
    /// The state in a tune's header. It returns an error if an allocation fails.
    pub fn in_header(alloc: Global, header: Header) -> Result<Entry, AllocError>
        ensures { IfOk result (λ entry. entry ≡ Entry.Header header) }
    {
        let header = Shared::new(alloc, header)?;
        Ok(Entry::Header(header))
    }

    /// The state in a tune's body. It returns an error if an allocation fails.
    pub fn in_body(alloc: Global, body: Body) -> Result<Entry, AllocError>
        ensures { IfOk result (λ entry. entry ≡ Entry.Body body) }
    {
        let body = Shared::new(alloc, body)?;
        Ok(Entry::Body(body))
    }

    /// The state at the beginning of a file header. It allocates nothing.
    pub fn header(_alloc: Global) -> Entry
        ensures { result ≡ Entry.FileHeader no_defaults }
    {
        Entry::FileHeader(NO_DEFAULTS)
    }

    /// The state at the beginning of a tune, by the state after the file header, if there is one. It allocates nothing.
    pub fn tune(_alloc: Global, after: Option<&Entry>) -> Entry
        ensures { result ≡ opening_after (option_copied after.entry) }
    {
        match after {
            Some(entry) => Entry::Opening(entry.defaults()),
            None => Entry::Opening(NO_DEFAULTS),
        }
    }

    /// The values in a file header; no values in the other states.
    pub fn defaults(&self) -> Defaults
        ensures { result ≡ defaults_of self.now }
    {
        match self {
            Entry::FileHeader(defaults) => *defaults,
            Entry::Opening(_) | Entry::Header(_) | Entry::Body(_) => NO_DEFAULTS,
        }
    }

    /// A copy, which shares the state in a header or a body. It allocates nothing.
    pub fn share(&self) -> Result<Entry, AllocError>
        ensures { IfOk result (λ copy. copy ≡ self.now) }
    {
        match self {
            Entry::FileHeader(defaults) => Ok(Entry::FileHeader(*defaults)),
            Entry::Opening(defaults) => Ok(Entry::Opening(*defaults)),
            Entry::Header(header) => {
                let header = header.share()?;
                Ok(Entry::Header(header))
            }
            Entry::Body(body) => {
                let body = body.share()?;
                Ok(Entry::Body(body))
            }
        }
    }
}
