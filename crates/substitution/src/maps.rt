//! Finite maps from variables to terms.
ghost use Rattle.std.specs.Prelude.{◌≡◌, ◌↔◌, IsTrue, is_some, option_copied, IfOk, OnOk, OnErr, refl};
ghost use Rattle.std.specs.FinMap as fin;
ghost use Rattle.std.specs.Ordering.{eq_by_cmp, as_partial_cmp};
ghost use Rattle.std.specs.Cmp.{partial_equiv_from_equiv, partial_order_from_total};
ghost use Rattle.std.proofs.lemmas.Cmp.{eq_by_cmp_equiv};
ghost use Rattle.fol.specs.declared.symbols.Var.{Var as Variable};
ghost use Rattle.finite.specs.Finite as set;
ghost use Rattle.substitution.specs.Maps.{domain, map_cmp, map_total};

use crate::bindings::search;
use fol::{Term, Var};
use free_variables::Vars;
use std::alloc::{AllocError, Global};
use std::cmp::Ordering;
use std::marker::Model;

/// A finite map from variables to terms, kept as bindings in rising order of the variables.
#[derive(Drop)]
pub struct Subst {
    items: Vec<(Var, Term)>,
}

impl Model for Subst {
    ghost use Rattle.std.specs.Prelude.{T};
    ghost use Rattle.std.specs.FinMap as fin;
    ghost use Rattle.fol.specs.Order.{var_cmp as order};
    ghost use Rattle.substitution.specs.Maps.{Map, coded_map};

    ghost Value = { Map };

    ghost coded = { coded_map };

    ghost view = { λ a. fin.from_sorted a.items.items };

    ghost invariant = { λ a. T (fin.is_sorted order a.items.items) };
}

impl Subst {
    /// The map with no binding.
    pub fn new(alloc: Global) -> Subst
        ensures { result ≡ fin.empty }
    {
        Subst {
            items: Vec::new(alloc),
        }
    }

    /// Binds the variable to the term, in place of the term that it had.
    pub fn set(&mut self, var: Var, term: Term) -> Result<(), AllocError>
        ensures ok { OnOk result (self.new ≡ fin.insert self.old var term) }
        ensures err { OnErr result (self.new ≡ self.old) }
    {
        match search(&self.items, &var) {
            Ok(at) => {
                self.items[at] = (var, term);
                Ok(())
            }
            Err(at) => {
                self.items.insert(at, (var, term))?;
                Ok(())
            }
        }
    }

    /// The term of the variable, by binary search.
    pub fn get(&self, var: &Var) -> Option<&Term>
        ensures { option_copied result ≡ fin.get self.now var.now }
    {
        match search(&self.items, var) {
            Ok(at) => {
                let (_, term) = &self.items[at];
                Some(term)
            }
            Err(_) => None,
        }
    }

    /// The bindings in rising order of the variables.
    pub fn as_slice(&self) -> &[(Var, Term)]
        ensures { result.now ≡ fin.entries self.now }
    {
        self.items.as_slice()
    }

    /// Whether there is no binding.
    pub fn is_empty(&self) -> bool
        ensures { IsTrue result ↔ (self.now ≡ fin.empty) }
    {
        self.items.is_empty()
    }

    /// The variables that have a term.
    #[tactic(auto, using(crate::proofs::MapLaws::domain_members))]
    pub fn vars(&self, alloc: Global) -> Result<Vars, AllocError>
        ensures value { IfOk result (λ vars. vars ≡ domain self.now) }
        ensures members { IfOk result (λ vars. (v : Variable) → set.has vars v ≡ is_some (fin.get self.now v)) }
    {
        let mut list = Vec::with_capacity(alloc, self.items.len())?;
        for (var, _) in &self.items {
            list.push(var.copy()?)?;
        }
        Ok(Vars::from_vec(list))
    }

    /// The same map, whose variables and terms are shared.
    pub fn copy(&self, alloc: Global) -> Result<Subst, AllocError>
        ensures { IfOk result (λ copy. copy ≡ self.now) }
    {
        let mut items = Vec::with_capacity(alloc, self.items.len())?;
        for (var, term) in &self.items {
            items.push((var.copy()?, term.copy()?))?;
        }
        Ok(Subst { items })
    }
}

impl PartialEq for Subst {
    ghost eq = { eq_by_cmp map_cmp };

    ghost laws = { partial_equiv_from_equiv (eq_by_cmp_equiv map_total) };

    #[tactic(auto, using(crate::proofs::MapLaws::map_equality_same))]
    fn eq(&self, other: &Subst) -> bool
        ensures value { result ≡ eq_by_cmp map_cmp self.now other.now }
        ensures same { IsTrue result ↔ (self.now ≡ other.now) }
    {
        self.cmp(other).is_eq()
    }
}

impl Eq for Subst {
    ghost laws = { eq_by_cmp_equiv map_total };
}

impl PartialOrd for Subst {
    ghost partial_cmp = { as_partial_cmp map_cmp };

    ghost laws = { partial_order_from_total map_total };

    fn partial_cmp(&self, other: &Subst) -> Option<Ordering> {
        Some(self.cmp(other))
    }
}

/// Maps are ordered by their bindings in rising order, each by its variable and then by its term. A map is after each of its beginnings.
impl Ord for Subst {
    ghost cmp = { map_cmp };

    ghost total = { map_total };

    ghost matches_partial_cmp = { λ x y. refl };

    ghost matches_eq = { λ x y. refl };

    #[tactic(auto, using(crate::proofs::MapLaws::map_order_same))]
    fn cmp(&self, other: &Subst) -> Ordering
        ensures value { result ≡ map_cmp self.now other.now }
        ensures ties { (result ≡ Ordering.Equal) ↔ (self.now ≡ other.now) }
    {
        self.as_slice().cmp(other.as_slice())
    }
}
