//! The formulas of a search by number.
ghost use Rattle.std.specs.Prelude.{◌≡◌, ◌*◌, ◌<◌, ◌≤◌, ◌^◌, ℕ, true, ◌&&◌, ◌||◌, ◌==◌, find, length, option_map, slice_index_or, IfOk, IfSome, Some, None};
ghost use Rattle.std.specs.List.{All, list_all};
ghost use Rattle.fol.specs.Formed.{is_formed, IsFormed};
ghost use Rattle.fol.specs.Order.{formula_cmp};
ghost use Rattle.fol.specs.Syntax.{top as truth, bot as falsity};
ghost use Rattle.finite.specs.Finite as set;
ghost use Rattle.lk_rules.specs.declared.sequent.Sequent.{Sequent as Conclusion};
ghost use Rattle.lk_rules.specs.Rules.{needs};
ghost use Rattle.search_laws.specs.Search.{is_compound as has_connective, premises_from};
ghost use Rattle.prop_search.specs.Bits.{has_number, words_for};
ghost use Rattle.prop_search.specs.Formulas.{formula_at, is_listed, side_of, span, sequent_of, IsNumberOf, IsFit, Marks};
ghost use Rattle.prop_search.specs.Numbering.{IsRoot};
ghost use Rattle.prop_search.specs.Parts.{HasParts, IsClosed};
ghost use Rattle.prop_search.specs.Premises.{place_on, rule_on, takes_from, without_main, with_part, AreWithin, premises_of};

use crate::bits;
use crate::connective::{Connective, Parts, Signed};
use crate::numbered::Numbered;
use crate::parts::parts_of;
use fol::{Formula, FormulaNode};
use lk_rules::{Rule, Sequent, Side};
use std::alloc::{AllocError, Global};
use std::marker::Model;

/// So many formulas are refused as want of memory.
const TOO_MANY: usize = 1 << 31;

/// The parts of the formulas of a sequent, truth and falsity, in rising order. The number of a formula is its place there.
pub(crate) struct Numbering {
    formulas: Vec<Formula>,
    roots: Vec<Option<Connective>>,
    compounds: Vec<u64>,
    top: u32,
    bot: u32,
}

impl Drop for Numbering {
    fn drop(self) {
        let Numbering {
            formulas,
            roots,
            compounds,
            top: _,
            bot: _,
        } = self;
        drop(formulas);
        drop(roots);
        drop(compounds);
    }
}

impl Model for Numbering {
    ghost use Rattle.std.specs.Prelude.{List};
    ghost use Rattle.std.specs.Coded.{coded_list};
    ghost use Rattle.fol.specs.Syntax.{Formula as Meaning};
    ghost use Rattle.fol.specs.Codes.{coded_formula};

    ghost Value = { List Meaning };

    ghost coded = { coded_list coded_formula };

    ghost use Rattle.prop_search.specs.Numbering.{IsNumbering};

    ghost view = { λ n. n.formulas.items };

    ghost invariant = { IsNumbering };
}

// The place of a formula in a rising list.
fn number_of(formulas: &[Formula], formula: &Formula) -> u32
    requires rises { set.IsRising formula_cmp formulas.now }
    requires few { length formulas.now < 2 ^ 31 }
    requires listed { is_listed formulas.now formula.now ≡ true }
    ensures { IsNumberOf formulas.now result formula.now }
{
    match finite::search(formulas, formula) {
        Ok(place) => place as u32,
        Err(_) => unreachable!(),
    }
}

// The connective at the head of a formula.
fn root_of(formulas: &[Formula], formula: &Formula) -> Option<Connective>
    requires rises { set.IsRising formula_cmp formulas.now }
    requires few { length formulas.now < 2 ^ 31 }
    requires parts { HasParts formulas.now formula.now }
    ensures { IsRoot formulas.now result formula.now }
{
    match formula.node() {
        FormulaNode::Not(body) => Some(Connective::Not(number_of(formulas, body))),
        FormulaNode::And(first, second) => {
            let first = number_of(formulas, first);
            Some(Connective::And(first, number_of(formulas, second)))
        }
        FormulaNode::Or(first, second) => {
            let first = number_of(formulas, first);
            Some(Connective::Or(first, number_of(formulas, second)))
        }
        FormulaNode::Imp(first, second) => {
            let first = number_of(formulas, first);
            Some(Connective::Imp(first, number_of(formulas, second)))
        }
        FormulaNode::Atom(..)
        | FormulaNode::Top
        | FormulaNode::Bot
        | FormulaNode::All(_)
        | FormulaNode::Ex(_) => None,
    }
}

// The connectives at the heads of the formulas.
fn roots_of(alloc: Global, formulas: &[Formula]) -> Result<Vec<Option<Connective>>, AllocError>
    requires rises { set.IsRising formula_cmp formulas.now }
    requires few { length formulas.now < 2 ^ 31 }
    requires parts { IsClosed formulas.now }
    ensures counted { IfOk result (λ roots. length roots.items ≡ length formulas.now) }
    ensures rooted { IfOk result (λ roots. (n : ℕ) → n < length formulas.now → IsRoot formulas.now (slice_index_or roots.items n None) (formula_at formulas.now n)) }
{
    let mut roots = Vec::with_capacity(alloc, formulas.len())?;
    for formula in formulas {
        roots.push(root_of(formulas, formula))?;
    }
    Ok(roots)
}

// Adds a number to a set where it is wanted.
fn insert_where(words: &mut [u64], number: usize, is_wanted: bool)
    requires { number < 64 * length words.old }
    ensures { (n : ℕ) → has_number words.new n ≡ ((n == number && is_wanted) || has_number words.old n) }
{
    if is_wanted {
        bits::insert(words, number);
    }
}

// The numbers of the formulas that have a connective at the head.
fn compounds_of(
    alloc: Global,
    formulas: &[Formula],
    roots: &[Option<Connective>],
) -> Result<Vec<u64>, AllocError>
    requires counted { length roots.now ≡ length formulas.now }
    requires rooted { (n : ℕ) → n < length formulas.now → IsRoot formulas.now (slice_index_or roots.now n None) (formula_at formulas.now n) }
    ensures { IfOk result (λ words. Marks formulas.now words.items has_connective) }
{
    let _formulas = formulas;
    let mut compounds = vec![in alloc; 0u64; roots.len() / 64 + 1]?;
    for (i, root) in roots.iter().enumerate() {
        insert_where(&mut compounds, i, root.is_some());
    }
    Ok(compounds)
}

impl Numbering {
    /// The numbering of the parts of a sequent's formulas.
    pub fn new(alloc: Global, sequent: &Sequent) -> Result<Numbering, AllocError>
        ensures left { IfOk result (λ fs. list_all (is_listed fs) (set.listing sequent.now.left) ≡ true) }
        ensures right { IfOk result (λ fs. list_all (is_listed fs) (set.listing sequent.now.right) ≡ true) }
    {
        let formulas = parts_of(alloc, sequent)?;
        if formulas.len() >= TOO_MANY {
            return Err(AllocError);
        }
        let roots = roots_of(alloc, &formulas)?;
        let compounds = compounds_of(alloc, &formulas, &roots)?;
        let top = number_of(&formulas, &Formula::top(alloc)?);
        let bot = number_of(&formulas, &Formula::bot(alloc)?);
        Ok(Numbering {
            formulas,
            roots,
            compounds,
            top,
            bot,
        })
    }

    /// The list rises.
    pub fn known(&self)
        ensures { set.IsRising formula_cmp self.now }
    {
        let _formulas = &self.formulas;
    }

    // The numbers of the formulas with a connective at the head.
    fn compounds(&self) -> &[u64]
        ensures { Marks self.now result.now has_connective }
    {
        &self.compounds
    }

    /// The formulas, each at its number.
    pub fn formulas(&self) -> &[Formula]
        ensures formulas { result.now ≡ self.now }
        ensures formed { All IsFormed result.now }
        ensures few { length result.now < 2 ^ 31 }
    {
        &self.formulas
    }

    /// The number of truth.
    pub fn top(&self) -> u32
        ensures { IsNumberOf self.now result truth }
    {
        self.top
    }

    /// The number of falsity.
    pub fn bot(&self) -> u32
        ensures { IsNumberOf self.now result falsity }
    {
        self.bot
    }

    /// How many words have room for the numbers of one side.
    pub fn width(&self) -> usize
        ensures width { result ≡ words_for (length self.now) }
        ensures few { result ≤ 2 ^ 26 }
    {
        self.formulas.len() / 64 + 1
    }

    /// The number of a formula.
    pub fn number(&self, formula: &Formula) -> u32
        requires { is_listed self.now formula.now ≡ true }
        ensures { IsNumberOf self.now result formula.now }
    {
        number_of(&self.formulas, formula)
    }

    // Where a formula on a side stands in the set of numbers for both sides.
    fn place(&self, side: Side, number: u32) -> usize
        requires { number < length self.now }
        ensures { result ≡ place_on self.now side number }
    {
        match side {
            Side::Left => number as usize,
            Side::Right => 64 * self.width() + number as usize,
        }
    }

    /// Adds a formula to one side of a sequent.
    pub fn add(&self, sequent: &mut Numbered, part: Signed)
        requires within { part.number < length self.now }
        requires fit { IsFit self.now sequent.old }
        ensures fit { IsFit self.now sequent.new }
        ensures sequent { sequent_of self.now sequent.new ≡ with_part self.now (sequent_of self.now sequent.old) part }
    {
        self.known();
        let place = self.place(part.side, part.number);
        sequent.insert(place);
    }

    /// Takes a formula from one side of a sequent.
    pub fn take(&self, sequent: &mut Numbered, side: Side, number: u32)
        requires within { number < length self.now }
        requires fit { IsFit self.now sequent.old }
        ensures fit { IsFit self.now sequent.new }
        ensures sequent { sequent_of self.now sequent.new ≡ takes_from (sequent_of self.now sequent.old) side (formula_at self.now number) }
    {
        self.known();
        let place = self.place(side, number);
        sequent.remove(place);
    }

    /// Puts a part in the place of a main formula.
    pub fn put(&self, sequent: &mut Numbered, main: Signed, part: Signed)
        requires main { main.number < length self.now }
        requires within { part.number < length self.now }
        requires fit { IsFit self.now sequent.old }
        ensures fit { IsFit self.now sequent.new }
        ensures sequent { sequent_of self.now sequent.new ≡ with_part self.now (without_main self.now (sequent_of self.now sequent.old) main) part }
    {
        self.take(sequent, main.side, main.number);
        self.add(sequent, part);
    }

    /// The formula with the number.
    pub fn formula(&self, number: u32) -> &Formula
        requires { number < length self.now }
        ensures formula { result.now ≡ formula_at self.now number }
        ensures formed { IsFormed result.now }
    {
        &self.formulas[number as usize]
    }

    /// The connective at the head of a formula that has one.
    pub fn root(&self, number: u32) -> Connective
        requires within { number < length self.now }
        requires compound { has_connective (formula_at self.now number) ≡ true }
        ensures { IsRoot self.now (Some result) (formula_at self.now number) }
    {
        match self.roots[number as usize] {
            Some(root) => root,
            None => unreachable!(),
        }
    }

    /// The rule of a compound formula's connective on a side, and what stands in its premises in place of the formula.
    pub fn rule(&self, main: Signed) -> Result<(Rule, Parts), AllocError>
        requires within { main.number < length self.now }
        requires compound { has_connective (formula_at self.now main.number) ≡ true }
        ensures rule { IfOk result (λ made. rule_on main.side (formula_at self.now main.number) ≡ Some made.0) }
        ensures parts { IfOk result (λ made. AreWithin self.now made.1) }
        ensures premises { IfOk result (λ made. (s : Conclusion) → premises_from made.0 s 0 (needs made.0) ≡ premises_of self.now s main made.1) }
    {
        let root = self.root(main.number);
        let formula = self.formula(main.number).copy()?;
        Ok((root.rule(main.side, formula), root.parts(main.side)))
    }

    /// The number of the least formula that stands on both sides.
    pub fn axiom(&self, sequent: &Numbered) -> Option<u32>
        requires { IsFit self.now sequent.now }
        ensures within { IfSome result (λ n. n < length self.now) }
        ensures least { option_map (formula_at self.now) result ≡ find (set.has (sequent_of self.now sequent.now).right) (set.listing (sequent_of self.now sequent.now).left) }
    {
        self.known();
        let width = self.width();
        let (left, right) = sequent.words().split_at(width);
        bits::first_common(left, right)
    }

    /// The number of the least formula on the left with a connective at the head.
    pub fn left_compound(&self, sequent: &Numbered) -> Option<u32>
        requires { IsFit self.now sequent.now }
        ensures within { IfSome result (λ n. n < length self.now) }
        ensures compound { IfSome result (λ n. has_connective (formula_at self.now n) ≡ true) }
        ensures least { option_map (formula_at self.now) result ≡ find has_connective (set.listing (sequent_of self.now sequent.now).left) }
    {
        self.known();
        let width = self.width();
        let (left, _) = sequent.words().split_at(width);
        bits::first_common(left, self.compounds())
    }

    /// The number of the least formula on the right with a connective at the head.
    pub fn right_compound(&self, sequent: &Numbered) -> Option<u32>
        requires { IsFit self.now sequent.now }
        ensures within { IfSome result (λ n. n < length self.now) }
        ensures compound { IfSome result (λ n. has_connective (formula_at self.now n) ≡ true) }
        ensures least { option_map (formula_at self.now) result ≡ find has_connective (set.listing (sequent_of self.now sequent.now).right) }
    {
        self.known();
        let width = self.width();
        let (_, right) = sequent.words().split_at(width);
        bits::first_common(right, self.compounds())
    }

    /// Whether truth stands on the right.
    pub fn has_truth(&self, sequent: &Numbered) -> bool
        requires { IsFit self.now sequent.now }
        ensures { result ≡ set.has (sequent_of self.now sequent.now).right truth }
    {
        self.known();
        let place = self.place(Side::Right, self.top());
        bits::has(sequent.words(), place)
    }

    /// Whether falsity stands on the left.
    pub fn has_falsity(&self, sequent: &Numbered) -> bool
        requires { IsFit self.now sequent.now }
        ensures { result ≡ set.has (sequent_of self.now sequent.now).left falsity }
    {
        self.known();
        let place = self.place(Side::Left, self.bot());
        bits::has(sequent.words(), place)
    }
}
