//! The items and faults of a cell.

ghost use Rattle.std.specs.Prelude.{◌≡◌, All, IfOk};
ghost use Rattle.abc_bars_items.specs.Item.{IsItem};

use crate::item::{Item, LocalFault};
use crate::items_builder::ItemsBuilder;
use abc_text::Shared;
use std::alloc::{AllocError, Global};
use std::marker::Model;

/// The items and the faults of a cell, each in order. A copy shares them. Contracts see the two lists.
#[derive(Drop)]
pub struct Items {
    lists: Shared<ItemsBuilder>,
}

impl Model for Items {
    ghost use Rattle.abc_bars_items.specs.Item.{Items as Lists};

    ghost Value = { Lists };

    ghost view = { λ items. items.lists };
}

impl Items {
    /// The items and faults of a builder. It returns an error if an allocation fails.
    pub fn new(alloc: Global, lists: ItemsBuilder) -> Result<Items, AllocError>
        ensures { IfOk result (λ items. items ≡ lists) }
    {
        let lists = Shared::new(alloc, lists)?;
        Ok(Items { lists })
    }

    /// The items in order.
    pub fn items(&self) -> &[Item]
        ensures value { result.now ≡ self.now.items }
        ensures range { All IsItem result.now }
    {
        self.lists.get().items()
    }

    /// The faults in order, each column counted from 1.
    pub fn faults(&self) -> &[LocalFault]
        ensures { result.now ≡ self.now.faults }
    {
        self.lists.get().faults()
    }

    /// A copy, which shares the lists. It returns an error if an allocation fails.
    pub fn share(&self) -> Result<Items, AllocError>
        ensures { IfOk result (λ copy. copy ≡ self.now) }
    {
        let lists = self.lists.share()?;
        Ok(Items { lists })
    }
}
