//! What a cell gives when its tune is performed.

ghost use Rattle.std.specs.Prelude.{◌≡◌, IfOk};

use crate::marks::Marks;
use abc_bars_items::Items;
use std::alloc::AllocError;

/// The items and faults of a cell, and its marks.
#[derive(Drop)]
pub struct PerformedItems {
    pub base: Items,
    pub marks: Marks,
}

impl PerformedItems {
    /// A copy, which shares the lists. It allocates nothing.
    pub fn share(&self) -> Result<PerformedItems, AllocError>
        ensures { IfOk result (λ copy. copy ≡ self.now) }
    {
        let base = self.base.share()?;
        let marks = self.marks.share()?;
        Ok(PerformedItems { base, marks })
    }
}
