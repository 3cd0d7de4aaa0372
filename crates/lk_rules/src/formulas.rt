//! Finite sets of well-formed formulas.
ghost use Rattle.std.specs.Prelude.{◌≡◌, ◌↔◌, ◌++◌, IsTrue, IfOk, OnOk, OnErr};
ghost use Rattle.std.specs.List.{All, list_any};
ghost use Rattle.std.specs.Cmp.{partial_equiv_from_equiv};
ghost use Rattle.finite.specs.Finite as set;
ghost use Rattle.std.specs.FinMap as fin;
ghost use Rattle.free_variables.specs.Union.{union_of};
ghost use Rattle.substitution.specs.Image.{IsFormedMap};
ghost use Rattle.lk_rules.specs.Formulas.{same_formulas, same_formulas_equiv, image_set, var_lists};
ghost use Rattle.fol.specs.Formed.{IsFormed};
ghost use Rattle.fol.specs.Order.{formula_cmp};
ghost use Rattle.lk_rules.specs.Items.{list_fingerprint};
ghost use Rattle.free_variables.specs.Occurrence.{is_free_in};

use crate::items::Items;
use fol::{Formula, Var};
use free_variables::{occurs_free, push_free_vars, rising};
use std::alloc::{AllocError, Global};
use std::marker::Model;
use substitution::{Subst, apply};

/// A finite set of well-formed formulas, kept in rising order. Copies share the list.
pub struct Formulas {
    items: Items,
}

impl Drop for Formulas {
    fn drop(self) {
        let Formulas { items } = self;
        drop(items);
    }
}

impl Model for Formulas {
    ghost use Rattle.finite.specs.Finite as set;
    ghost use Rattle.fol.specs.Order.{formula_cmp};
    ghost use Rattle.fol.specs.Codes.{coded_formula};
    ghost use Rattle.lk_rules.specs.Formulas.{IsListing};

    ghost Value = { set.Finite formula_cmp };

    ghost coded = { set.code coded_formula };

    ghost view = { λ a. set.of_rising a.items };

    ghost invariant = { λ a. IsListing a.items };
}

impl Formulas {
    /// The set with no formula.
    pub fn new(alloc: Global) -> Formulas
        ensures { result ≡ set.empty }
    {
        Formulas {
            items: Items::new(alloc),
        }
    }

    /// The set of the formulas of a list, in O(n log n) comparisons.
    pub fn from_vec(alloc: Global, items: Vec<Formula>) -> Result<Formulas, AllocError>
        requires { All IsFormed items.items }
        ensures { IfOk result (λ formulas. formulas ≡ set.of_list items.items) }
    {
        let mut items = items;
        rising::sort_distinct(&mut items);
        let items = Items::from_vec(alloc, items)?;
        Ok(Formulas { items })
    }

    /// The set of the formulas of a rising list, which are neither compared nor copied.
    pub fn from_rising(alloc: Global, items: Vec<Formula>) -> Result<Formulas, AllocError>
        requires rises { set.IsRising formula_cmp items.items }
        requires formed { All IsFormed items.items }
        ensures { IfOk result (λ formulas. set.listing formulas ≡ items.items) }
    {
        let items = Items::from_vec(alloc, items)?;
        Ok(Formulas { items })
    }

    /// The formulas in rising order.
    pub fn as_slice(&self) -> &[Formula]
        ensures listing { result.now ≡ set.listing self.now }
        ensures formed { All IsFormed result.now }
    {
        self.items.as_slice()
    }

    /// Whether the formula is in the set, by binary search.
    pub fn has(&self, f: &Formula) -> bool
        ensures { result ≡ set.has self.now f.now }
    {
        finite::search(self.items.as_slice(), f).is_ok()
    }

    /// Adds a formula, unless the set has it. The list is copied, since others may share it.
    pub fn add(&mut self, f: Formula) -> Result<(), AllocError>
        requires { IsFormed f }
        ensures ok { OnOk result (self.new ≡ set.adds self.old f) }
        ensures err { OnErr result (self.new ≡ self.old) }
    {
        *self = self.with(f)?;
        Ok(())
    }

    // The set with one more formula.
    fn with(&self, f: Formula) -> Result<Formulas, AllocError>
        requires { IsFormed f }
        ensures { IfOk result (λ more. more ≡ set.adds self.now f) }
    {
        let alloc = self.items.allocator();
        let mut items = Vec::new(alloc);
        rising::push_shared(&mut items, self.items.as_slice())?;
        finite::add(&mut items, f)?;
        let items = Items::from_vec(alloc, items)?;
        Ok(Formulas { items })
    }

    /// Whether each formula of this set is in the other.
    pub fn subset(&self, other: &Formulas) -> bool
        ensures { result ≡ set.subset self.now other.now }
    {
        finite::is_within(self.items.as_slice(), other.items.as_slice())
    }

    /// Whether the variable is free in a formula of the set.
    pub fn has_free(&self, var: &Var) -> bool
        ensures { result ≡ list_any (is_free_in var.now) (set.listing self.now) }
    {
        self.as_slice()
            .iter()
            .any(|formula| occurs_free(var, formula))
    }

    /// The formulas of both sets, by one walk over both.
    pub fn union(&self, alloc: Global, other: &Formulas) -> Result<Formulas, AllocError>
        ensures { IfOk result (λ union. union ≡ union_of self.now other.now) }
    {
        let items = rising::merge(alloc, self.items.as_slice(), other.items.as_slice())?;
        let items = Items::from_vec(alloc, items)?;
        Ok(Formulas { items })
    }

    /// The images of the formulas under a map whose terms are well formed. Formulas that fall together become one.
    pub fn image(&self, alloc: Global, map: &Subst) -> Result<Formulas, AllocError>
        requires { IsFormedMap (fin.get map.now) }
        ensures { IfOk result (λ image. image ≡ image_set (fin.get map.now) self.now) }
    {
        let mut images = Vec::with_capacity(alloc, self.as_slice().len())?;
        for formula in self.as_slice() {
            images.push(apply(alloc, map, formula)?)?;
        }
        Formulas::from_vec(alloc, images)
    }

    /// Appends the free variables of the formulas, one for each occurrence. After an error some of them may stand there.
    pub fn push_free_vars(&self, list: &mut Vec<Var>) -> Result<(), AllocError>
        ensures { IfOk result (λ _. list.new.items ≡ list.old.items ++ var_lists (set.listing self.now)) }
    {
        for formula in self.as_slice() {
            push_free_vars(list, formula)?;
        }
        Ok(())
    }

    /// A number in which unequal sets mostly differ.
    pub fn fingerprint(&self) -> u64
        ensures { result ≡ list_fingerprint (set.listing self.now) }
    {
        self.items.fingerprint()
    }

    /// The same set, whose list is shared.
    pub fn copy(&self) -> Result<Formulas, AllocError>
        ensures { IfOk result (λ copy. copy ≡ self.now) }
    {
        let items = self.items.copy()?;
        Ok(Formulas { items })
    }
}

impl PartialEq for Formulas {
    ghost eq = { same_formulas };

    ghost laws = { partial_equiv_from_equiv same_formulas_equiv };

    #[tactic(auto, using(crate::proofs::Listings::formulas_equality_same))]
    fn eq(&self, other: &Formulas) -> bool
        ensures value { result ≡ same_formulas self.now other.now }
        ensures same { IsTrue result ↔ (self.now ≡ other.now) }
    {
        self.fingerprint() == other.fingerprint() && self.as_slice() == other.as_slice()
    }
}

impl Eq for Formulas {
    ghost laws = { same_formulas_equiv };
}
