//! The texts of items.

ghost use Rattle.std.specs.Prelude.{◌≡◌, IfOk};

use abc_text::{Sequence, Shared};
use std::alloc::{AllocError, Global};
use std::marker::Model;

/// The bytes of a name, a title or an order of parts. They are stored apart, since few items have them and each item is
/// as large as the largest. Copies share them.
#[derive(Drop)]
pub struct ItemText {
    bytes: Shared<Sequence<u8>>,
}

impl Model for ItemText {
    ghost use Rattle.std.specs.Prelude.{List, ℕ};

    ghost Value = { List ℕ };

    ghost view = { λ text. text.bytes };
}

impl ItemText {
    /// A copy of these bytes. It returns an error if an allocation fails.
    pub fn new(alloc: Global, bytes: &[u8]) -> Result<ItemText, AllocError>
        ensures { IfOk result (λ text. text ≡ bytes.now) }
    {
        let bytes = Sequence::from_slice(alloc, bytes)?;
        let bytes = Shared::new(alloc, bytes)?;
        Ok(ItemText { bytes })
    }

    /// The bytes in order.
    pub fn as_slice(&self) -> &[u8]
        ensures { result.now ≡ self.now }
    {
        self.bytes.get().as_slice()
    }
}

impl Clone for ItemText {
    ghost is_clone = { λ text copy. copy ≡ text };

    fn clone(&self) -> Result<ItemText, AllocError> {
        let bytes = self.bytes.share()?;
        Ok(ItemText { bytes })
    }
}
