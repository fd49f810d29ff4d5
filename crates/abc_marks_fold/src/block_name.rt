//! The names of text blocks.

ghost use Rattle.std.specs.Prelude.{◌≡◌, IfOk, bytes_eq};
ghost use Rattle.std.specs.Cmp.{on_equiv, on_per, partial_equiv_from_equiv};
ghost use Rattle.std.specs.Cmp.Lexicographic.{nat_list_eq_equiv};

use abc_bars_voice::Same;
use abc_text::{Sequence, Shared};
use std::alloc::{AllocError, Global};
use std::marker::Model;

/// The name of a text block, as `text` of `%%begintext` (ABC 2.1 section 11.1). Contracts see its bytes. Copies share them.
#[derive(Drop)]
pub struct BlockName {
    bytes: Shared<Sequence<u8>>,
}

impl Model for BlockName {
    ghost use Rattle.std.specs.Prelude.{List, ℕ};
    ghost use Rattle.std.specs.Coded.{coded_list, coded_ℕ};

    ghost Value = { List ℕ };

    ghost coded = { coded_list coded_ℕ };

    ghost view = { λ name. name.bytes };
}

impl BlockName {
    /// The name with these bytes. It returns an error if an allocation fails.
    pub fn new(alloc: Global, bytes: &[u8]) -> Result<BlockName, AllocError>
        ensures { IfOk result (λ name. name ≡ bytes.now) }
    {
        let bytes = Sequence::from_slice(alloc, bytes)?;
        let bytes = Shared::new(alloc, bytes)?;
        Ok(BlockName { bytes })
    }

    /// A copy, which shares the bytes. It allocates nothing.
    pub fn share(&self) -> Result<BlockName, AllocError>
        ensures { IfOk result (λ copy. copy ≡ self.now) }
    {
        let bytes = self.bytes.share()?;
        Ok(BlockName { bytes })
    }
}

impl Same for BlockName {
    fn same(&self, other: &BlockName) -> bool {
        *self == *other
    }
}

impl PartialEq for BlockName {
    ghost eq = { bytes_eq };

    ghost laws = { on_per (λ name. name) (partial_equiv_from_equiv nat_list_eq_equiv) };

    fn eq(&self, other: &BlockName) -> bool {
        self.bytes.get() == other.bytes.get()
    }
}

impl Eq for BlockName {
    ghost laws = { on_equiv (λ name. name) nat_list_eq_equiv };
}
