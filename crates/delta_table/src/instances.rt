//! The instances of a sequent's formulas.
ghost use Rattle.std.specs.Prelude.{◌≡◌, ◌-◌, ◌^◌, min, IfOk};
ghost use Rattle.herbrand_laws.specs.Counted.{counted, counted_tuples};

use crate::item::Item;
use crate::items::Items;
use std::alloc::{AllocError, Global};
use std::marker::Model;

/// The instances of a sequent's formulas: an item for each formula, those of the left side before those of the right one.
#[derive(Drop)]
pub struct Instances {
    pub items: Items,
}

impl Model for Instances {
    ghost use Rattle.std.specs.Prelude.{List};
    ghost use Rattle.std.specs.Coded.{coded_list};
    ghost use Rattle.herbrand_laws.specs.Herbrand.{Item as Meaning};
    ghost use Rattle.delta_table.specs.Items.{coded_item};

    ghost Value = { List Meaning };

    ghost coded = { coded_list coded_item };

    ghost view = { λ a. a.items };
}

impl Instances {
    /// The instances of these items.
    pub fn new(items: Items) -> Instances
        ensures { result ≡ items }
    {
        Instances { items }
    }

    /// The items, in order.
    pub fn items(&self) -> &[Item]
        ensures { result.now ≡ self.now }
    {
        self.items.as_slice()
    }

    /// The same instances, whose parts are shared.
    pub fn copy(&self, alloc: Global) -> Result<Instances, AllocError>
        ensures { IfOk result (λ copy. copy ≡ self.now) }
    {
        let items = self.items.copy(alloc)?;
        Ok(Instances { items })
    }
}

fn count_item(item: &Item) -> u64
    ensures { result ≡ counted_tuples item.now }
{
    if item.quantifiers() == 0 {
        return 0;
    }
    item.tuples().as_slice().len() as u64
}

/// The number of tuples of quantified formulas, at most 2^64 - 1. It takes no memory.
pub fn count(instances: &Instances) -> u64
    ensures { result ≡ min (counted instances.now) (2 ^ 64 - 1) }
{
    let mut count: u64 = 0;
    for item in instances.items() {
        count = count.saturating_add(count_item(item));
    }
    count
}
