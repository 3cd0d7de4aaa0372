//! Finite sets of predicate symbols.
ghost use Rattle.std.specs.Prelude.{◌≡◌, ◌↔◌, IsTrue, IfOk, OnOk, OnErr};
ghost use Rattle.finite.specs.Finite as set;
ghost use Rattle.finite.specs.Finite.{IsSubset};
ghost use Rattle.free_variables.specs.Union.{union_of};

use crate::rising::{self, Share};
use fol::Predicate;
use std::alloc::{AllocError, Global};
use std::marker::Model;

/// A finite set of predicate symbols with their bodies, kept in rising order.
#[derive(Drop)]
pub struct Syms {
    items: Vec<Predicate>,
}

impl Model for Syms {
    ghost use Rattle.finite.specs.Finite as set;
    ghost use Rattle.fol.specs.Order.{pred_cmp as order};
    ghost use Rattle.fol.specs.Codes.{coded_pred};

    ghost Value = { set.Finite order };

    ghost coded = { set.code coded_pred };

    ghost view = { λ a. set.of_rising a.items.items };

    ghost invariant = { λ a. set.IsRising order a.items.items };
}

impl Share for Predicate {
    fn share(&self) -> Result<Predicate, AllocError> {
        self.copy()
    }
}

impl Syms {
    /// The set with no symbol.
    pub fn new(alloc: Global) -> Syms
        ensures { result ≡ set.empty }
    {
        Syms {
            items: Vec::new(alloc),
        }
    }

    /// The set of the symbols of a list, in O(n log n) comparisons and without memory.
    pub fn from_vec(items: Vec<Predicate>) -> Syms
        ensures { result ≡ set.of_list items.items }
    {
        let mut items = items;
        rising::sort_distinct(&mut items);
        Syms { items }
    }

    /// The symbols in rising order.
    pub fn as_slice(&self) -> &[Predicate]
        ensures { result.now ≡ set.listing self.now }
    {
        self.items.as_slice()
    }

    /// The symbols in rising order, as a list of their own.
    pub fn into_vec(self) -> Vec<Predicate>
        ensures { result.items ≡ set.listing self }
    {
        let Syms { items } = self;
        items
    }

    /// Whether the symbol is in the set, by binary search.
    pub fn has(&self, symbol: &Predicate) -> bool
        ensures { result ≡ set.has self.now symbol.now }
    {
        finite::search(&self.items, symbol).is_ok()
    }

    /// Adds a symbol, unless the set has it.
    pub fn add(&mut self, symbol: Predicate) -> Result<(), AllocError>
        ensures ok { OnOk result (self.new ≡ set.adds self.old symbol) }
        ensures err { OnErr result (self.new ≡ self.old) }
    {
        finite::add(&mut self.items, symbol)
    }

    /// Whether each symbol of this set is in the other.
    pub fn subset(&self, other: &Syms) -> bool
        ensures value { result ≡ set.subset self.now other.now }
        ensures subset { IsTrue result ↔ IsSubset self.now other.now }
    {
        finite::is_within(&self.items, &other.items)
    }

    /// The symbols of both sets, by one walk over both.
    pub fn union(&self, alloc: Global, other: &Syms) -> Result<Syms, AllocError>
        ensures { IfOk result (λ union. union ≡ union_of self.now other.now) }
    {
        let items = rising::merge(alloc, &self.items, &other.items)?;
        Ok(Syms { items })
    }

    /// The same set, whose symbols are shared.
    pub fn copy(&self, alloc: Global) -> Result<Syms, AllocError>
        ensures { IfOk result (λ copy. copy ≡ self.now) }
    {
        let mut items = Vec::with_capacity(alloc, self.items.len())?;
        rising::push_shared(&mut items, &self.items)?;
        Ok(Syms { items })
    }
}
