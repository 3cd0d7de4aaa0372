//! What a proof uses: addresses with numbers, and what is marked at them.
ghost use Rattle.std.specs.Prelude.{◌≡◌, ◌<◌, ℕ, false, [], ◌∷◌, ◌++◌, length, map, IfOk, IfSome, IsNone, OnOk};
ghost use Rattle.std.specs.List.{All};
ghost use Rattle.fol.specs.Syntax.{free};
ghost use Rattle.fol.specs.Formed.{IsFormed, IsFormedTerm};
ghost use Rattle.finite.specs.Finite as set;
ghost use Rattle.extraction_laws.specs.Addresses.{root, part as part_of, via as via_of, is_listed, formula_at, side_at};
ghost use Rattle.extraction_laws.specs.States.{unmarked, opened, instantiated, named, variable_at, terms_at};
ghost use Rattle.exp_extract.specs.Marked.{address_at, IsPlace};
ghost use Rattle.exp_extract.specs.Entries.{IsQuantified};
ghost use Rattle.exp_extract.specs.Quantifiers.{is_weak, IsWeakAt, IsStrongAt, Grows};

use crate::names::Names;
use crate::places::Places;
use fol::{Formula, FormulaNode, Term, TermNode, Var};
use free_variables::Vars;
use lk_rules::Side;
use std::alloc::{AllocError, Global};
use std::collections::HashSet;
use std::marker::Model;

/// What a proof uses. Each instance at a weak quantifier that has a number is marked.
#[derive(Drop)]
pub(crate) struct Marks {
    names: Names,
    pub places: Places,
    used: HashSet<u32>,
}

impl Model for Marks {
    ghost use Rattle.exp_extract.specs.Marked.{Marked};
    ghost use Rattle.exp_extract.specs.MarkedCodes.{coded_marked};

    ghost Value = { Marked };

    ghost coded = { coded_marked };

    ghost use Rattle.exp_extract.specs.Marks.{marked_of, AreMarks};

    ghost view = { marked_of };

    ghost invariant = { AreMarks };
}

impl Marks {
    /// With nothing marked. The variables of `outside` aren't given to strong quantifiers.
    pub fn new(alloc: Global, outside: Vars) -> Result<Marks, AllocError>
        ensures outside { IfOk result (λ marks. marks.outside ≡ set.listing outside) }
        ensures addresses { IfOk result (λ marks. marks.addresses ≡ []) }
        ensures state { IfOk result (λ marks. marks.state ≡ unmarked) }
    {
        let names = Names::new(alloc, outside)?;
        Ok(Marks {
            names,
            places: Places::new(alloc),
            used: HashSet::new(alloc),
        })
    }

    /// Whether the formula at an address is used.
    pub fn is_used(&self, place: u32) -> bool
        requires { IsPlace self.now place }
        ensures { result ≡ set.has self.now.state.opened (address_at self.now place) }
    {
        self.places.known();
        self.used.contains(&place)
    }

    /// The variable of a strong quantifier as a term, and where the address has none the next one.
    pub fn variable_term(&self, place: u32) -> &Term
        requires { IsPlace self.now place }
        ensures value { result.now ≡ free (variable_at self.now.outside self.now.state (address_at self.now place)) }
        ensures formed { IsFormedTerm result.now }
    {
        self.places.known();
        self.names.variable(place)
    }

    /// The variable of a strong quantifier, and where the address has none the next one.
    pub fn variable(&self, place: u32) -> Result<Var, AllocError>
        requires { IsPlace self.now place }
        ensures { IfOk result (λ v. v ≡ variable_at self.now.outside self.now.state (address_at self.now place)) }
    {
        match self.variable_term(place).node() {
            TermNode::Free(var) => var.copy(),
            _ => unreachable!(),
        }
    }

    /// Enters the address of a formula of the sequent.
    pub fn root(&mut self, alloc: Global, side: Side, formula: Formula) -> Result<u32, AllocError>
        requires absent { is_listed (root side formula) self.old.addresses ≡ false }
        requires formed { IsFormed formula }
        ensures number { IfOk result (λ n. n ≡ length self.old.addresses) }
        ensures addresses { OnOk result (self.new.addresses ≡ self.old.addresses ++ root side formula ∷ []) }
        ensures outside { self.new.outside ≡ self.old.outside }
        ensures state { self.new.state ≡ self.old.state }
    {
        self.places.root(alloc, side, formula)
    }

    /// The formula at an address is used.
    pub fn open(&mut self, place: u32) -> Result<(), AllocError>
        requires { IsPlace self.old place }
        ensures addresses { self.new.addresses ≡ self.old.addresses }
        ensures outside { self.new.outside ≡ self.old.outside }
        ensures state { OnOk result (self.new.state ≡ opened (address_at self.old place) self.old.state) }
    {
        self.used.insert(place)?;
        Ok(())
    }

    /// Gives the next variable to an address, unless it has one.
    pub fn name(&mut self, alloc: Global, place: u32) -> Result<(), AllocError>
        requires { IsPlace self.old place }
        ensures addresses { self.new.addresses ≡ self.old.addresses }
        ensures outside { self.new.outside ≡ self.old.outside }
        ensures state { OnOk result (self.new.state ≡ named (address_at self.old place) self.old.state) }
    {
        self.places.known();
        self.names.name(alloc, place)
    }

    /// The number of a part of an address, the first or the second.
    pub fn make_part(&mut self, alloc: Global, place: u32, number: u64) -> Result<u32, AllocError>
        requires place { IsPlace self.old place }
        requires number { number < 2 }
        ensures part { IfOk result (λ p. IsPlace self.new p × (address_at self.new p ≡ part_of (address_at self.old place) number)) }
        ensures grown { Grows self.old.addresses self.new.addresses }
        ensures outside { self.new.outside ≡ self.old.outside }
        ensures state { self.new.state ≡ self.old.state }
    {
        self.places.make_part(alloc, place, number)
    }

    /// The number of an instance at a quantifier. At a weak one it is marked.
    pub fn make_via(&mut self, alloc: Global, place: u32, term: &Term) -> Result<u32, AllocError>
        requires place { IsPlace self.old place }
        requires quantified { IsQuantified (formula_at (address_at self.old place)) }
        requires formed { IsFormedTerm term.now }
        ensures via { IfOk result (λ p. IsPlace self.new p × (address_at self.new p ≡ via_of (address_at self.old place) term.now)) }
        ensures grown { Grows self.old.addresses self.new.addresses }
        ensures outside { self.new.outside ≡ self.old.outside }
        ensures weak { IsWeakAt (address_at self.old place) → OnOk result (self.new.state ≡ instantiated (address_at self.old place) term.now self.old.state) }
        ensures strong { IsStrongAt (address_at self.old place) → self.new.state ≡ self.old.state }
    {
        self.places.make_via(alloc, place, term)
    }
}
