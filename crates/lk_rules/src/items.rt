//! Lists of formulas that copies share.
ghost use Rattle.std.specs.Prelude.{◌≡◌, [], IfOk};
ghost use Rattle.lk_rules.specs.Items.{list_fingerprint};

use fol::{Formula, mix};
use std::alloc::{AllocError, Global};
use std::marker::Model;
use std::sync::Arc;

/// A list of formulas that cannot be changed and is shared by its copies.
pub(crate) struct Items {
    alloc: Global,
    list: Option<Arc<Listing>>,
}

impl Drop for Items {
    fn drop(self) {
        let Items { alloc: _, list } = self;
        drop(list);
    }
}

// The formulas with the fingerprint of their list.
#[derive(Drop)]
pub(crate) struct Listing {
    fingerprint: u64,
    items: Vec<Formula>,
}

impl Model for Items {
    ghost use Rattle.std.specs.Prelude.{List};
    ghost use Rattle.std.specs.Coded.{coded_list};
    ghost use Rattle.fol.specs.Syntax.{Formula as Meaning};
    ghost use Rattle.fol.specs.Codes.{coded_formula};
    ghost use Rattle.lk_rules.specs.Items.{items_of, IsPrinted};

    ghost Value = { List Meaning };

    ghost coded = { coded_list coded_formula };

    ghost view = { λ i. items_of i.list };

    ghost invariant = { λ i. IsPrinted i.list };
}

#[tactic(auto, unfolding(crate::specs::Items::list_fingerprint))]
fn fingerprint_of(formulas: &[Formula]) -> u64
    ensures { result ≡ list_fingerprint formulas.now }
{
    formulas.iter().fold(
        19,
        |fingerprint, formula| mix(fingerprint, formula.fingerprint()),
    )
}

impl Items {
    /// The list of no formula.
    pub fn new(alloc: Global) -> Items
        ensures { result ≡ [] }
    {
        Items { alloc, list: None }
    }

    /// The list of these formulas, which are moved and not copied.
    pub fn from_vec(alloc: Global, items: Vec<Formula>) -> Result<Items, AllocError>
        ensures { IfOk result (λ list. list ≡ items.items) }
    {
        let fingerprint = fingerprint_of(&items);
        let list = Arc::new(alloc, Listing { fingerprint, items })?;
        let list = Some(list);
        Ok(Items { alloc, list })
    }

    /// The formulas, in order.
    pub fn as_slice(&self) -> &[Formula]
        ensures { result.now ≡ self.now }
    {
        match &self.list {
            Some(list) => list.items.as_slice(),
            None => &[],
        }
    }

    /// A number in which unequal lists mostly differ.
    pub fn fingerprint(&self) -> u64
        ensures { result ≡ list_fingerprint self.now }
    {
        match &self.list {
            Some(list) => list.fingerprint,
            None => fingerprint_of(&[]),
        }
    }

    /// The allocator of the list.
    pub fn allocator(&self) -> Global {
        self.alloc
    }

    /// Another owner of the same list.
    pub fn copy(&self) -> Result<Items, AllocError>
        ensures { IfOk result (λ list. list ≡ self.now) }
    {
        match &self.list {
            Some(list) => {
                let list = Some(Arc::try_clone(list)?);
                Ok(Items {
                    alloc: self.alloc,
                    list,
                })
            }
            None => Ok(Items::new(self.alloc)),
        }
    }
}
