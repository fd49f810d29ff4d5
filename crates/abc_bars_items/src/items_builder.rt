//! The items and faults of a cell, one by one.

ghost use Rattle.std.specs.Prelude.{◌≡◌, All, [], ◌∷◌, IfOk, OnErr, OnOk};
ghost use Rattle.abc_bars_items.specs.Item.{IsItem, no_items, append_item, append_faults};

use crate::item::{Item, LocalFault};
use abc_text::Sequence;
use std::alloc::{AllocError, Global};
use std::marker::Model;

/// The items and the faults of a cell so far, each in the order in which it was added.
#[derive(Drop)]
pub struct ItemsBuilder {
    items: Vec<Item>,
    faults: Vec<LocalFault>,
}

impl Model for ItemsBuilder {
    ghost use Rattle.std.specs.Prelude.{All};
    ghost use Rattle.abc_bars_items.specs.Item.{Items as Lists, IsItem};

    ghost Value = { Lists };

    ghost view = { λ builder. record { items = builder.items.items; faults = builder.faults.items } };

    ghost invariant = { λ builder. All IsItem builder.items.items };
}

impl ItemsBuilder {
    /// A builder without items and faults, with room for `items` items. It returns an error if an allocation fails.
    pub fn with_capacity(alloc: Global, items: usize) -> Result<ItemsBuilder, AllocError>
        ensures { IfOk result (λ builder. builder ≡ no_items) }
    {
        Ok(ItemsBuilder {
            items: Vec::with_capacity(alloc, items)?,
            faults: Vec::new(alloc),
        })
    }

    /// A builder with these items and faults.
    pub fn of(items: Sequence<Item>, faults: Sequence<LocalFault>) -> ItemsBuilder
        requires { All IsItem items }
        ensures items { result.items ≡ items }
        ensures faults { result.faults ≡ faults }
    {
        ItemsBuilder {
            items: items.into_vec(),
            faults: faults.into_vec(),
        }
    }

    /// The items in the order in which they were added.
    pub fn items(&self) -> &[Item]
        ensures value { result.now ≡ self.now.items }
        ensures range { All IsItem result.now }
    {
        self.items.as_slice()
    }

    /// The faults in the order in which they were added, each column counted from 1.
    pub fn faults(&self) -> &[LocalFault]
        ensures { result.now ≡ self.now.faults }
    {
        self.faults.as_slice()
    }

    /// Adds an item at the end. Most items have room, and then no function is called. It returns an error if an allocation
    /// fails.
    #[inline(always)]
    pub fn push_item(&mut self, item: Item) -> Result<(), AllocError>
        requires { IsItem item }
        ensures ok { OnOk result (self.new ≡ append_item self.old item) }
        ensures unchanged { OnErr result (self.new ≡ self.old) }
    {
        if self.items.len() < self.items.capacity() {
            self.items.push_reserved(item);
            return Ok(());
        }
        self.items.push(item)?;
        Ok(())
    }

    /// Adds a fault at the end. It returns an error if an allocation fails.
    pub fn push_fault(&mut self, fault: LocalFault) -> Result<(), AllocError>
        ensures ok { OnOk result (self.new ≡ append_faults self.old (fault ∷ [])) }
        ensures unchanged { OnErr result (self.new ≡ self.old) }
    {
        self.faults.push(fault)?;
        Ok(())
    }

    /// Adds faults at the end. It returns an error if an allocation fails.
    pub fn push_faults(&mut self, more: &[LocalFault]) -> Result<(), AllocError>
        ensures ok { OnOk result (self.new ≡ append_faults self.old more.now) }
        ensures unchanged { OnErr result (self.new ≡ self.old) }
    {
        self.faults.extend_from_slice(more)?;
        Ok(())
    }

    /// Adds an item and its faults at the end. It makes room for the item first, so that no fault is added without it. It
    /// returns an error if an allocation fails.
    pub fn push_with_faults(&mut self, item: Item, faults: &[LocalFault]) -> Result<(), AllocError>
        requires { IsItem item }
        ensures ok { OnOk result (self.new ≡ append_item (append_faults self.old faults.now) item) }
        ensures unchanged { OnErr result (self.new ≡ self.old) }
    {
        self.items.reserve(1)?;
        self.faults.extend_from_slice(faults)?;
        self.items.push(item)?;
        Ok(())
    }
}
