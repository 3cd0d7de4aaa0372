//! Finite sets of variables.
ghost use Rattle.std.specs.Prelude.{◌≡◌, ◌↔◌, not, ◌&&◌, IsTrue, IfOk, OnOk, OnErr};
ghost use Rattle.std.specs.Ordering.{eq_by_cmp};
ghost use Rattle.fol.specs.declared.symbols.Var.{Var as Variable};
ghost use Rattle.fol.specs.Order.{var_cmp};
ghost use Rattle.finite.specs.Finite as set;
ghost use Rattle.finite.specs.Finite.{IsSubset};
ghost use Rattle.free_variables.specs.Union.{union_of};

use crate::rising::{self, Share};
use fol::Var;
use std::alloc::{AllocError, Global};
use std::marker::Model;

/// A finite set of variables, kept in rising order.
#[derive(Drop)]
pub struct Vars {
    items: Vec<Var>,
}

impl Model for Vars {
    ghost use Rattle.finite.specs.Finite as set;
    ghost use Rattle.fol.specs.Order.{var_cmp as order};
    ghost use Rattle.free_variables.specs.Sets.{coded_var};

    ghost Value = { set.Finite order };

    ghost coded = { set.code coded_var };

    ghost view = { λ a. set.of_rising a.items.items };

    ghost invariant = { λ a. set.IsRising order a.items.items };
}

impl Share for Var {
    fn share(&self) -> Result<Var, AllocError> {
        self.copy()
    }
}

impl Vars {
    /// The set with no variable.
    pub fn new(alloc: Global) -> Vars
        ensures { result ≡ set.empty }
    {
        Vars {
            items: Vec::new(alloc),
        }
    }

    /// The set of the variables of a list, in O(n log n) comparisons and without memory.
    pub fn from_vec(items: Vec<Var>) -> Vars
        ensures { result ≡ set.of_list items.items }
    {
        let mut items = items;
        rising::sort_distinct(&mut items);
        Vars { items }
    }

    /// The variables in rising order.
    pub fn as_slice(&self) -> &[Var]
        ensures { result.now ≡ set.listing self.now }
    {
        self.items.as_slice()
    }

    /// The variables in rising order, as a list of their own.
    pub fn into_vec(self) -> Vec<Var>
        ensures { result.items ≡ set.listing self }
    {
        let Vars { items } = self;
        items
    }

    /// Whether the variable is in the set, by binary search.
    pub fn has(&self, var: &Var) -> bool
        ensures { result ≡ set.has self.now var.now }
    {
        finite::search(&self.items, var).is_ok()
    }

    /// Adds a variable, unless the set has it.
    pub fn add(&mut self, var: Var) -> Result<(), AllocError>
        ensures ok { OnOk result (self.new ≡ set.adds self.old var) }
        ensures err { OnErr result (self.new ≡ self.old) }
    {
        finite::add(&mut self.items, var)
    }

    /// Removes a variable, where the set has it.
    pub fn remove(&mut self, var: &Var)
        ensures { (v : Variable) → set.has self.new v ≡ (not (eq_by_cmp var_cmp v var.now) && set.has self.old v) }
    {
        finite::remove(&mut self.items, var)
    }

    /// Whether each variable of this set is in the other.
    pub fn subset(&self, other: &Vars) -> bool
        ensures value { result ≡ set.subset self.now other.now }
        ensures subset { IsTrue result ↔ IsSubset self.now other.now }
    {
        finite::is_within(&self.items, &other.items)
    }

    /// The variables of both sets, by one walk over both.
    pub fn union(&self, alloc: Global, other: &Vars) -> Result<Vars, AllocError>
        ensures { IfOk result (λ union. union ≡ union_of self.now other.now) }
    {
        let items = rising::merge(alloc, &self.items, &other.items)?;
        Ok(Vars { items })
    }

    /// The same set, whose variables are shared.
    pub fn copy(&self, alloc: Global) -> Result<Vars, AllocError>
        ensures { IfOk result (λ copy. copy ≡ self.now) }
    {
        let mut items = Vec::with_capacity(alloc, self.items.len())?;
        rising::push_shared(&mut items, &self.items)?;
        Ok(Vars { items })
    }
}
