//! A table of addresses: each has a number, after that of the address of which it is a part or an instance.
ghost use Rattle.std.specs.Prelude.{◌≡◌, ◌<◌, true, false, [], ◌∷◌, ◌++◌, length, IfOk, IfSome, OnOk, OnErr};
ghost use Rattle.std.specs.BTreeMap.{get, IsEmpty};
ghost use Rattle.fol.specs.Syntax.{Term as Meaning};
ghost use Rattle.fol.specs.Order.{term_cmp};
ghost use Rattle.fol.specs.Formed.{IsFormed, IsFormedTerm};
ghost use Rattle.extraction_laws.specs.Addresses.{Address, root, part as part_of, via as via_of, part_formula, part_side, is_listed, formula_at, side_at};
ghost use Rattle.extraction_laws.specs.States.{with_address};
ghost use Rattle.exp_extract.specs.Marked.{address_in};
ghost use Rattle.exp_extract.specs.Entries.{origin_address, part_in, with_part, IsChild, FindsChild, AreDistinct, HasParent, IsQuantified};

use exp_tree::other;
use fol::{Formula, FormulaNode, Term};
use lk_rules::Side;
use std::alloc::{AllocError, Global};
use std::collections::BTreeMap;
use std::marker::Model;
use substitution::instance;

/// How an address is made: it is the formula of a sequent, a part of the formula at another address, or its instance by a term.
#[derive(Drop)]
pub(crate) enum Origin {
    Root,
    Part(u32, u64),
    Via(u32, Term),
}

/// An address: the formula there, its side, and the numbers of its parts and instances.
pub(crate) struct Entry {
    pub origin: Origin,
    pub formula: Formula,
    pub side: Side,
    pub first: Option<u32>,
    pub second: Option<u32>,
    pub vias: BTreeMap<Term, u32>,
}

impl Drop for Entry {
    fn drop(self) {
        let Entry {
            origin,
            formula,
            side: _,
            first: _,
            second: _,
            vias,
        } = self;
        drop(origin);
        drop(formula);
        drop(vias);
    }
}

/// A table of addresses, which differ.
#[derive(Drop)]
pub(crate) struct Places {
    entries: Vec<Entry>,
}

impl Model for Places {
    ghost use Rattle.std.specs.Prelude.{List};
    ghost use base.Stored.{coded_list};
    ghost use Rattle.extraction_laws.specs.Addresses.{Address};
    ghost use Rattle.exp_extract.specs.AddressCodes.{coded_address};

    ghost Value = { List Address };

    ghost coded = { coded_list coded_address };

    ghost use Rattle.exp_extract.specs.Placed.{placed, ArePlaces};

    ghost view = { placed };

    ghost invariant = { ArePlaces };
}

impl Entry {
    // With no part and no instance.
    fn new(alloc: Global, origin: Origin, formula: Formula, side: Side) -> Entry
        ensures fields { result ≡ record { origin = origin; formula = formula; side = side; first = None; second = None; vias = result.vias } }
        ensures empty { IsEmpty result.vias }
    {
        Entry {
            origin,
            formula,
            side,
            first: None,
            second: None,
            vias: BTreeMap::new(alloc),
        }
    }

    // The number of a part.
    fn part(&self, number: u64) -> Option<u32>
        ensures { result ≡ part_in self.now number }
    {
        if number == 0 { self.first } else { self.second }
    }

    // Enters the number of a part.
    fn set_part(&mut self, number: u64, place: u32)
        ensures { self.new ≡ with_part self.old number place }
    {
        if number == 0 {
            self.first = Some(place);
        } else {
            self.second = Some(place);
        }
    }
}

/// A part of a formula with a connective at its head; other formulas have none.
pub(crate) fn formula_part(formula: &Formula, number: u64) -> &Formula
    ensures value { result.now ≡ part_formula formula.now number }
    ensures formed { IsFormed formula.now → IsFormed result.now }
{
    match formula.node() {
        FormulaNode::Not(body) => body,
        FormulaNode::And(first, second)
        | FormulaNode::Or(first, second)
        | FormulaNode::Imp(first, second) => { if number == 0 { first } else { second } }
        _ => formula,
    }
}

// The side on which the part of a formula on a side stands.
fn side_of_part(formula: &Formula, number: u64, side: Side) -> Side
    ensures { result ≡ part_side formula.now number side }
{
    match (formula.node(), side) {
        (FormulaNode::Not(_), side) => other(side),
        (FormulaNode::Imp(..), side) if number == 0 => other(side),
        (_, side) => side,
    }
}

impl Places {
    /// With no address.
    pub fn new(alloc: Global) -> Places
        ensures { result ≡ [] }
    {
        Places {
            entries: Vec::new(alloc),
        }
    }

    /// Addresses differ.
    pub fn known(&self)
        ensures { AreDistinct self.now }
    {
        let _entries = &self.entries;
    }

    /// The formula at an address.
    pub fn formula(&self, place: u32) -> &Formula
        requires { place < length self.now }
        ensures value { result.now ≡ formula_at (address_in self.now place) }
        ensures formed { IsFormed result.now }
    {
        &self.entries[place as usize].formula
    }

    /// The side of an address.
    pub fn side(&self, place: u32) -> Side
        requires { place < length self.now }
        ensures { result ≡ side_at (address_in self.now place) }
    {
        self.entries[place as usize].side
    }

    /// The number of a part of an address, which is the first or the second.
    pub fn part(&self, place: u32, number: u64) -> Option<u32>
        requires place { place < length self.now }
        requires number { number < 2 }
        ensures { FindsChild self.now (part_of (address_in self.now place) number) result }
    {
        self.entries[place as usize].part(number)
    }

    /// The numbers of the instances at an address, by their terms.
    pub fn vias(&self, place: u32) -> &BTreeMap<Term, u32>
        requires { place < length self.now }
        ensures places { (t : Meaning) → FindsChild self.now (via_of (address_in self.now place) t) (get term_cmp result.now t) }
        ensures formed { (t : Meaning) → IfSome (get term_cmp result.now t) (λ _. IsFormedTerm t) }
    {
        &self.entries[place as usize].vias
    }

    /// The number of the instance at an address by a term.
    pub fn via(&self, place: u32, term: &Term) -> Option<u32>
        requires { place < length self.now }
        ensures { FindsChild self.now (via_of (address_in self.now place) term.now) result }
    {
        self.vias(place).get(term).copied()
    }

    // The number of one more entry. There are fewer than 2^32.
    fn next(&self) -> Result<u32, AllocError>
        ensures { IfOk result (λ n. n ≡ length self.now) }
    {
        u32::try_from(self.entries.len()).map_err(|_| AllocError)
    }

    /// Enters the address of a formula of the sequent.
    pub fn root(&mut self, alloc: Global, side: Side, formula: Formula) -> Result<u32, AllocError>
        requires absent { is_listed (root side formula) self.old ≡ false }
        requires formed { IsFormed formula }
        ensures number { IfOk result (λ n. n ≡ length self.old) }
        ensures ok { OnOk result (self.new ≡ self.old ++ root side formula ∷ []) }
        ensures err { OnErr result (self.new ≡ self.old) }
    {
        let number = self.next()?;
        self.entries
            .push(Entry::new(alloc, Origin::Root, formula, side))?;
        Ok(number)
    }

    // Enters a part that isn't there.
    fn push_part(
        &mut self,
        alloc: Global,
        place: u32,
        number: u64,
        formula: Formula,
        side: Side,
    ) -> Result<u32, AllocError>
        requires place { place < length self.old }
        requires number { number < 2 }
        requires absent { is_listed (part_of (address_in self.old place) number) self.old ≡ false }
        requires formula { formula ≡ formula_at (part_of (address_in self.old place) number) }
        requires formed { IsFormed formula }
        requires side { side ≡ side_at (part_of (address_in self.old place) number) }
        ensures number { IfOk result (λ n. n ≡ length self.old) }
        ensures ok { OnOk result (self.new ≡ self.old ++ part_of (address_in self.old place) number ∷ []) }
        ensures err { OnErr result (self.new ≡ self.old) }
    {
        let child = self.next()?;
        self.entries.reserve(1)?;
        let parent = &mut self.entries[place as usize];
        parent.set_part(number, child);
        let origin = Origin::Part(place, number);
        self.entries
            .push_reserved(Entry::new(alloc, origin, formula, side));
        Ok(child)
    }

    // Enters an instance that isn't there.
    fn push_via(
        &mut self,
        alloc: Global,
        place: u32,
        term: &Term,
        formula: Formula,
        side: Side,
    ) -> Result<u32, AllocError>
        requires place { place < length self.old }
        requires absent { is_listed (via_of (address_in self.old place) term.now) self.old ≡ false }
        requires formula { formula ≡ formula_at (via_of (address_in self.old place) term.now) }
        requires formed { IsFormed formula }
        requires term { IsFormedTerm term.now }
        requires side { side ≡ side_at (via_of (address_in self.old place) term.now) }
        ensures number { IfOk result (λ n. n ≡ length self.old) }
        ensures ok { OnOk result (self.new ≡ self.old ++ via_of (address_in self.old place) term.now ∷ []) }
        ensures err { OnErr result (self.new ≡ self.old) }
    {
        let child = self.next()?;
        let origin = Origin::Via(place, term.copy()?);
        let term = term.copy()?;
        self.entries.reserve(1)?;
        let parent = &mut self.entries[place as usize];
        parent.vias.insert(term, child)?;
        self.entries
            .push_reserved(Entry::new(alloc, origin, formula, side));
        Ok(child)
    }

    /// The number of a part of an address, which is the first or the second. It is entered unless it is there.
    pub fn make_part(&mut self, alloc: Global, place: u32, number: u64) -> Result<u32, AllocError>
        requires place { place < length self.old }
        requires number { number < 2 }
        ensures child { IfOk result (IsChild self.new (part_of (address_in self.old place) number)) }
        ensures ok { OnOk result (self.new ≡ with_address self.old (part_of (address_in self.old place) number)) }
        ensures err { OnErr result (self.new ≡ self.old) }
    {
        if let Some(known) = self.part(place, number) {
            return Ok(known);
        }
        let formula = self.formula(place);
        let side = side_of_part(formula, number, self.side(place));
        let formula = formula_part(formula, number).copy()?;
        self.push_part(alloc, place, number, formula, side)
    }

    /// The number of the instance by a term of the quantified formula at an address. It is entered unless it is there.
    pub fn make_via(&mut self, alloc: Global, place: u32, term: &Term) -> Result<u32, AllocError>
        requires place { place < length self.old }
        requires term { IsFormedTerm term.now }
        requires quantified { IsQuantified (formula_at (address_in self.old place)) }
        ensures child { IfOk result (IsChild self.new (via_of (address_in self.old place) term.now)) }
        ensures ok { OnOk result (self.new ≡ with_address self.old (via_of (address_in self.old place) term.now)) }
        ensures err { OnErr result (self.new ≡ self.old) }
    {
        if let Some(known) = self.via(place, term) {
            return Ok(known);
        }
        let side = self.side(place);
        let formula = match self.formula(place).node() {
            FormulaNode::All(body) | FormulaNode::Ex(body) => instance(alloc, body, term)?,
            _ => unreachable!(),
        };
        self.push_via(alloc, place, term, formula, side)
    }
}
