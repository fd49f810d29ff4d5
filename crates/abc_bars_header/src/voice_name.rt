//! The names of voices.

ghost use Rattle.std.specs.Prelude.{◌≡◌, IfOk, bytes_eq};
ghost use Rattle.std.specs.Cmp.{on_equiv, on_per, partial_equiv_from_equiv};
ghost use Rattle.std.specs.Cmp.Lexicographic.{nat_list_eq_equiv};
ghost use Rattle.std.specs.Cmp.Rules.{hashing};
ghost use Rattle.std.specs.Hash as fed;
ghost use Rattle.std.proofs.Common.{rules};

use abc_bars_voice::Same;
use abc_text::{Sequence, Shared};
use std::alloc::{AllocError, Global};
use std::hash::{Hash, Hasher};
use std::marker::Model;

/// The name of a voice, as a field V: writes it (ABC 2.1 section 7.1); that of the voice without one
/// is empty. Contracts see its bytes. Copies share them, since each stored state of a tune has every name.
#[derive(Drop)]
pub struct VoiceName {
    bytes: Shared<Sequence<u8>>,
}

impl Model for VoiceName {
    ghost use Rattle.std.specs.Prelude.{List, ℕ};
    ghost use Rattle.std.specs.Coded.{coded_list, coded_ℕ};

    ghost Value = { List ℕ };

    ghost coded = { coded_list coded_ℕ };

    ghost view = { λ name. name.bytes };
}

impl VoiceName {
    /// The name with these bytes. It returns an error if an allocation fails.
    pub fn new(alloc: Global, bytes: &[u8]) -> Result<VoiceName, AllocError>
        ensures { IfOk result (λ name. name ≡ bytes.now) }
    {
        let bytes = Sequence::from_slice(alloc, bytes)?;
        let bytes = Shared::new(alloc, bytes)?;
        Ok(VoiceName { bytes })
    }
}

impl Same for VoiceName {
    fn same(&self, other: &VoiceName) -> bool {
        *self == *other
    }
}

impl Clone for VoiceName {
    ghost is_clone = { λ name copy. copy ≡ name };

    fn clone(&self) -> Result<VoiceName, AllocError> {
        let bytes = self.bytes.share()?;
        Ok(VoiceName { bytes })
    }
}

impl PartialEq for VoiceName {
    ghost eq = { bytes_eq };

    ghost laws = { on_per (λ name. name) (partial_equiv_from_equiv nat_list_eq_equiv) };

    fn eq(&self, other: &VoiceName) -> bool {
        self.bytes.get() == other.bytes.get()
    }
}

impl Eq for VoiceName {
    ghost laws = { on_equiv (λ name. name) nat_list_eq_equiv };
}

impl Hash for VoiceName {
    ghost hash_input = { λ name. fed.slice fed.u8 name };

    ghost respects_eq = { Prim.search (hashing, rules) };

    fn hash<H: Hasher>(&self, state: &mut H) {
        self.bytes.get().as_slice().hash(state);
    }
}
