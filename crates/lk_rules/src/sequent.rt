//! Sequents.
ghost use Rattle.std.specs.Prelude.{◌≡◌, ◌↔◌, IsTrue, IfOk, OnOk, OnErr};
ghost use Rattle.std.specs.List.{All};
ghost use Rattle.std.specs.Cmp.{partial_equiv_from_equiv};
ghost use Rattle.std.specs.FinMap as fin;
ghost use Rattle.finite.specs.Finite as set;
ghost use Rattle.fol.specs.declared.symbols.Var.{Var as Variable};
ghost use Rattle.substitution.specs.Image.{IsFormedMap};
ghost use Rattle.fol.specs.Formed.{IsFormed};
ghost use Rattle.lk_rules.specs.Sequents.{empty as empty_sequent, side_of, adds_to, is_free_in_sequent, is_subsequent, IsSubsequent, union_sequent, image_sequent, vars_sequent, same_sequents, same_sequents_equiv};
ghost use Rattle.lk_rules.specs.Fingerprints.{sequent_fingerprint};

use crate::formulas::Formulas;
use fol::{Formula, Var, mix};
use free_variables::Vars;
use std::alloc::{AllocError, Global};
use substitution::Subst;

/// The sides of a sequent: the antecedent is on the left, the succedent on the right.
#[derive(Clone, Copy, PartialEq, Eq)]
pub enum Side {
    Left,
    Right,
}

/// A sequent: two finite sets of well-formed formulas. It says that where all formulas on the left are true, one on the right is.
pub struct Sequent {
    pub left: Formulas,
    pub right: Formulas,
}

impl Drop for Sequent {
    fn drop(self) {
        let Sequent { left, right } = self;
        drop(left);
        drop(right);
    }
}

impl Sequent {
    /// The sequent with no formula, which is false.
    pub fn empty(alloc: Global) -> Sequent
        ensures { result ≡ empty_sequent }
    {
        Sequent {
            left: Formulas::new(alloc),
            right: Formulas::new(alloc),
        }
    }

    /// Adds a formula to one side, unless it stands there.
    pub fn add(&mut self, side: Side, f: Formula) -> Result<(), AllocError>
        requires { IsFormed f }
        ensures ok { OnOk result (self.new ≡ adds_to self.old side f) }
        ensures err { OnErr result (self.new ≡ self.old) }
    {
        match side {
            Side::Left => self.left.add(f),
            Side::Right => self.right.add(f),
        }
    }

    /// The formulas of the antecedent in rising order.
    pub fn left(&self) -> &[Formula]
        ensures listing { result.now ≡ set.listing self.now.left }
        ensures formed { All IsFormed result.now }
    {
        self.left.as_slice()
    }

    /// The formulas of the succedent in rising order.
    pub fn right(&self) -> &[Formula]
        ensures listing { result.now ≡ set.listing self.now.right }
        ensures formed { All IsFormed result.now }
    {
        self.right.as_slice()
    }

    /// Whether the formula stands on that side.
    pub fn has(&self, side: Side, f: &Formula) -> bool
        ensures { result ≡ set.has (side_of self.now side) f.now }
    {
        match side {
            Side::Left => self.left.has(f),
            Side::Right => self.right.has(f),
        }
    }

    /// Whether the variable is free in a formula of the sequent.
    pub fn has_free(&self, var: &Var) -> bool
        ensures { result ≡ is_free_in_sequent var.now self.now }
    {
        self.left.has_free(var) || self.right.has_free(var)
    }

    /// Whether this sequent is a subsequent of the other.
    pub fn subset(&self, other: &Sequent) -> bool
        ensures value { result ≡ is_subsequent self.now other.now }
        ensures subsequent { IsTrue result ↔ IsSubsequent self.now other.now }
    {
        self.left.subset(&other.left) && self.right.subset(&other.right)
    }

    /// The formulas of both sequents, side by side.
    pub fn union(&self, alloc: Global, other: &Sequent) -> Result<Sequent, AllocError>
        ensures { IfOk result (λ union. union ≡ union_sequent self.now other.now) }
    {
        let left = self.left.union(alloc, &other.left)?;
        let right = self.right.union(alloc, &other.right)?;
        Ok(Sequent { left, right })
    }

    /// The sequent of the images under a map whose terms are well formed.
    pub fn image(&self, alloc: Global, map: &Subst) -> Result<Sequent, AllocError>
        requires { IsFormedMap (fin.get map.now) }
        ensures { IfOk result (λ image. image ≡ image_sequent (fin.get map.now) self.now) }
    {
        let left = self.left.image(alloc, map)?;
        let right = self.right.image(alloc, map)?;
        Ok(Sequent { left, right })
    }

    /// The free variables of the sequent's formulas. It takes O(n log n) comparisons for n occurrences.
    #[tactic(auto, using(crate::proofs::SequentVariables::sequent_var_members))]
    pub fn free_vars(&self, alloc: Global) -> Result<Vars, AllocError>
        ensures value { IfOk result (λ vars. vars ≡ vars_sequent self.now) }
        ensures members { IfOk result (λ vars. (v : Variable) → set.has vars v ≡ is_free_in_sequent v self.now) }
    {
        let mut list = Vec::new(alloc);
        self.left.push_free_vars(&mut list)?;
        self.right.push_free_vars(&mut list)?;
        Ok(Vars::from_vec(list))
    }

    /// A number in which unequal sequents mostly differ.
    #[tactic(auto, unfolding(crate::specs::Fingerprints::sequent_fingerprint))]
    pub fn fingerprint(&self) -> u64
        ensures { result ≡ sequent_fingerprint self.now }
    {
        mix(self.left.fingerprint(), self.right.fingerprint())
    }

    /// The same sequent, whose sides are shared: it takes no memory.
    pub fn copy(&self) -> Result<Sequent, AllocError>
        ensures { IfOk result (λ copy. copy ≡ self.now) }
    {
        let left = self.left.copy()?;
        let right = self.right.copy()?;
        Ok(Sequent { left, right })
    }
}

impl PartialEq for Sequent {
    ghost eq = { same_sequents };

    ghost laws = { partial_equiv_from_equiv same_sequents_equiv };

    fn eq(&self, other: &Sequent) -> bool
        ensures value { result ≡ same_sequents self.now other.now }
        ensures same { IsTrue result ↔ (self.now ≡ other.now) }
    {
        self.left == other.left && self.right == other.right
    }
}

impl Eq for Sequent {
    ghost laws = { same_sequents_equiv };
}
