//! Lists of items.
ghost use Rattle.std.specs.Prelude.{◌≡◌, IfOk};

use crate::item::Item;
use std::alloc::{AllocError, Global};
use std::marker::Model;

/// A list of items.
#[derive(Drop)]
pub struct Items {
    items: Vec<Item>,
}

impl Model for Items {
    ghost use Rattle.std.specs.Prelude.{List};
    ghost use Rattle.std.specs.Coded.{coded_list};
    ghost use Rattle.herbrand_laws.specs.Herbrand.{Item as Meaning};
    ghost use Rattle.delta_table.specs.Items.{coded_item};

    ghost Value = { List Meaning };

    ghost coded = { coded_list coded_item };

    ghost view = { λ a. a.items.items };
}

impl Items {
    /// The items of a list, in its order.
    pub fn from_vec(items: Vec<Item>) -> Items
        ensures { result ≡ items.items }
    {
        Items { items }
    }

    /// The items, in order.
    pub fn as_slice(&self) -> &[Item]
        ensures { result.now ≡ self.now }
    {
        self.items.as_slice()
    }

    /// The same items, whose parts are shared.
    pub fn copy(&self, alloc: Global) -> Result<Items, AllocError>
        ensures { IfOk result (λ copy. copy ≡ self.now) }
    {
        let mut items = Vec::with_capacity(alloc, self.items.len())?;
        for item in &self.items {
            items.push(item.copy(alloc)?)?;
        }
        Ok(Items { items })
    }
}
