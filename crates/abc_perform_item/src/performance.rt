//! The items of a performance, one by one.

ghost use Rattle.std.specs.Prelude.{◌≡◌, [], ◌∷◌, ◌++◌, length, All, OnErr, OnOk};
ghost use Rattle.abc_bars_items.specs.Item.{IsItem};
ghost use Rattle.abc_perform_item.specs.Performance.{IsPerformed};

use crate::performed::Performed;
use std::alloc::{AllocError, Global};
use std::marker::Model;

/// The performed items so far, in order. Contracts see the list.
#[derive(Drop)]
pub struct Performance {
    items: Vec<Performed>,
}

impl Model for Performance {
    ghost use Rattle.std.specs.Prelude.{All, List};
    ghost use Rattle.abc_perform_item.specs.declared.performed.Performed.{Performed};
    ghost use Rattle.abc_perform_item.specs.Performance.{IsPerformed};

    ghost Value = { List Performed };

    ghost view = { λ performance. performance.items.items };

    ghost invariant = { λ performance. All IsPerformed performance.items.items };
}

impl Performance {
    /// No items yet.
    pub fn new(alloc: Global) -> Performance
        ensures { result ≡ [] }
    {
        Performance {
            items: Vec::new(alloc),
        }
    }

    /// Appends an item. It returns an error if an allocation fails.
    pub fn push(&mut self, performed: Performed) -> Result<(), AllocError>
        requires { IsPerformed performed }
        ensures ok { OnOk result (self.new ≡ self.old ++ performed ∷ []) }
        ensures unchanged { OnErr result (self.new ≡ self.old) }
    {
        self.items.push(performed)?;
        Ok(())
    }

    /// The items in order.
    pub fn as_slice(&self) -> &[Performed]
        ensures value { result.now ≡ self.now }
        ensures range { All IsPerformed result.now }
    {
        self.items.as_slice()
    }

    /// Returns the number of items.
    pub fn len(&self) -> usize
        ensures { result ≡ length self.now }
    {
        self.items.len()
    }
}
