//! Whether two headers are equal.

ghost use Rattle.std.specs.Prelude.{◌≡◌, ◌↔◌, IsTrue, slice_get};
ghost use Rattle.std.specs.Cmp.{partial_equiv_from_equiv};
ghost use Rattle.abc_bars_header.specs.SameDefaults.{same_defaults, defaults_equivalence};

use crate::defaults::Defaults;
use crate::header::Header;
use crate::voices::Voices;
use abc_bars_voice::Same;

impl Same for Defaults {
    fn same(&self, other: &Defaults) -> bool {
        self.meter.same(&other.meter)
            && self.unit.same(&other.unit)
            && self.tempo.same(&other.tempo)
            && self.program.same(&other.program)
            && self.reach == other.reach
    }
}

impl PartialEq for Defaults {
    ghost eq = { same_defaults };

    ghost laws = { partial_equiv_from_equiv defaults_equivalence };

    fn eq(&self, other: &Defaults) -> bool {
        self.same(other)
    }
}

impl Eq for Defaults {
    ghost laws = { defaults_equivalence };
}

impl<S: Same> Voices<S> {
    /// Whether both have the same voice with equal values at an index, or none.
    fn same_at(&self, other: &Voices<S>, at: usize) -> bool
        ensures { IsTrue result ↔ (slice_get self.now at ≡ slice_get other.now at) }
    {
        match (self.entry(at), other.entry(at)) {
            (Some((name, known)), Some((with, known_with))) => {
                name.same(with) && known.same(known_with)
            }
            (None, None) => true,
            _ => false,
        }
    }
}

impl<S: Same> Same for Voices<S> {
    fn same(&self, other: &Voices<S>) -> bool {
        if self.len() != other.len() {
            return false;
        }
        for at in 0..self.len() {
            if !self.same_at(other, at) {
                return false;
            }
        }
        true
    }
}

impl Same for Header {
    fn same(&self, other: &Header) -> bool {
        self.defaults.same(&other.defaults) && self.voices.same(&other.voices)
    }
}
