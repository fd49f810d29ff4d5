//! Whether two entries are equal.

ghost use Rattle.std.specs.Prelude.{◌≡◌, ◌↔◌, IsTrue};

use crate::body::{Body, Current};
use crate::entry::Entry;
use abc_bars_voice::Same;

impl Same for Current {
    fn same(&self, other: &Current) -> bool {
        match (self, other) {
            (Current::Unnamed(state), Current::Unnamed(with)) => state.same(with),
            (Current::At(at), Current::At(place)) => at == place,
            _ => false,
        }
    }
}

impl Same for Body {
    fn same(&self, other: &Body) -> bool {
        self.voices.same(&other.voices)
            && self.current.same(&other.current)
            && self.another.same(&other.another)
    }
}

impl Entry {
    /// Whether both entries are equal: then equal cells give equal items and faults there, and equal entries after them. It
    /// allocates nothing.
    pub fn same(&self, other: &Entry) -> bool
        ensures { IsTrue result ↔ (self.now ≡ other.now) }
    {
        match (self, other) {
            (Entry::FileHeader(defaults), Entry::FileHeader(with)) => defaults.same(with),
            (Entry::Opening(defaults), Entry::Opening(with)) => defaults.same(with),
            (Entry::Header(header), Entry::Header(with)) => header.get().same(with.get()),
            (Entry::Body(body), Entry::Body(with)) => body.get().same(with.get()),
            _ => false,
        }
    }
}
