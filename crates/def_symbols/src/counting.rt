//! How many nodes a formula has with all defined symbols unfolded, counted without building it.
ghost use Rattle.std.specs.Prelude.{◌≡◌, ◌+◌, ◌^◌, ◌<◌, ◌≤◌, ◌++◌, length, true, MatchOption, IfOk, OnOk};
ghost use Rattle.fol.specs.Facts.{formula_size};
ghost use Rattle.fol.specs.Formed.{count_terms, is_formed_at};
ghost use Rattle.fol.specs.Syntax.{formula_nodes};
ghost use Rattle.substitution.specs.Unfolding.{matrix_under};
ghost use Rattle.def_laws.specs.Flat.{flat};
ghost use Rattle.def_symbols.specs.Weights.{size_for, weight_of_term, weight_of_terms, weight_of, cut, cut_sizes};

use fol::{Formula, FormulaNode, Term, TermNode, Terms, TermsLink};
use std::alloc::{AllocError, Global};

/// A symbol stands for no formula with more nodes, where all in it is unfolded.
pub const MAX_NODES: u32 = 10_000;

/// Takes the nodes of the formula with all unfolded from what is left, where arguments of these sizes are put for its indices. It fails as
/// soon as nothing is left, so it takes no longer than what is left and the symbols that are unfolded on the way.
pub fn count(
    alloc: Global,
    formula: &Formula,
    sizes: &[u32],
    level: u64,
    left: u32,
) -> Result<Option<u32>, AllocError>
    requires formed { is_formed_at level formula.now ≡ true }
    requires within { length sizes.now ≤ level }
    requires room { level + formula_size formula.now ≤ 2 ^ 32 }
    requires few { left ≤ 10000 }
    ensures { IfOk result (λ o. MatchOption o (left < weight_of sizes.now level (flat formula.now)) (λ rest. rest + weight_of sizes.now level (flat formula.now) ≡ left)) }
{
    let Some(left) = one(left) else {
        return Ok(None);
    };
    match formula.node() {
        FormulaNode::Atom(predicate, terms) => match &predicate.body {
            None => Ok(weigh_terms(terms, sizes, level, left)),
            Some(body) => {
                let sizes = sizes_of(alloc, terms, sizes, level)?;
                let matrix = matrix(body, terms);
                count(alloc, matrix, &sizes, sizes.len() as u64, left + 1)
            }
        },
        FormulaNode::Top | FormulaNode::Bot => Ok(Some(left)),
        FormulaNode::Not(body) => count(alloc, body, sizes, level, left),
        FormulaNode::All(body) | FormulaNode::Ex(body) => {
            count(alloc, body, sizes, level + 1, left)
        }
        FormulaNode::And(first, second)
        | FormulaNode::Or(first, second)
        | FormulaNode::Imp(first, second) => {
            match count(alloc, first, sizes, level, left)? {
                Some(left) => count(alloc, second, sizes, level, left),
                None => Ok(None),
            }
        }
    }
}

// Takes one node from what is left.
fn one(left: u32) -> Option<u32>
    ensures { MatchOption result (left < 1) (λ rest. rest + 1 ≡ left) }
{
    left.checked_sub(1)
}

// The formula without its outermost universal quantifiers, one for each argument.
pub fn matrix<'a>(formula: &'a Formula, arguments: &Terms) -> &'a Formula
    ensures value { result.now ≡ matrix_under arguments.now formula.now }
    ensures smaller { formula_nodes result.now ≤ formula_nodes formula.now }
{
    match (arguments.link(), formula.node()) {
        (TermsLink::Cons(_, rest), FormulaNode::All(body)) => matrix(body, rest),
        _ => formula,
    }
}

// The numbers of nodes of the arguments of an atom, each cut off above the most that a definition may have.
fn sizes_of(alloc: Global, terms: &Terms, sizes: &[u32], level: u64) -> Result<Vec<u32>, AllocError>
    ensures { IfOk result (λ v. v.items ≡ cut_sizes sizes.now level terms.now) }
{
    let mut inner = Vec::new(alloc);
    push_sizes(&mut inner, terms, sizes, level)?;
    Ok(inner)
}

// Appends the numbers of nodes of the terms of a list.
fn push_sizes(
    list: &mut Vec<u32>,
    terms: &Terms,
    sizes: &[u32],
    level: u64,
) -> Result<(), AllocError>
    ensures { OnOk result (list.new.items ≡ list.old.items ++ cut_sizes sizes.now level terms.now) }
{
    match terms.link() {
        TermsLink::Nil => Ok(()),
        TermsLink::Cons(first, rest) => {
            list.push(cut_size(first, sizes, level))?;
            push_sizes(list, rest, sizes, level)
        }
    }
}

// The number of nodes of a term, cut off.
fn cut_size(term: &Term, sizes: &[u32], level: u64) -> u32
    ensures { result ≡ cut (weight_of_term sizes.now level term.now) }
{
    match weigh(term, sizes, level, MAX_NODES) {
        Some(rest) => MAX_NODES - rest,
        None => MAX_NODES + 1,
    }
}

// Takes the nodes of a term from what is left.
#[cycle(weigh)]
fn weigh(term: &Term, sizes: &[u32], level: u64, left: u32) -> Option<u32>
    ensures { MatchOption result (left < weight_of_term sizes.now level term.now) (λ rest. rest + weight_of_term sizes.now level term.now ≡ left) }
{
    match term.node() {
        TermNode::Free(_) => one(left),
        TermNode::Bound(index) => left.checked_sub(size_at(sizes, level, *index)),
        TermNode::App(_, terms) => weigh_terms(terms, sizes, level, one(left)?),
    }
}

// Takes the nodes of a list's terms from what is left.
#[cycle(weigh)]
fn weigh_terms(terms: &Terms, sizes: &[u32], level: u64, left: u32) -> Option<u32>
    ensures { MatchOption result (left < weight_of_terms sizes.now level terms.now) (λ rest. rest + weight_of_terms sizes.now level terms.now ≡ left) }
{
    match terms.link() {
        TermsLink::Nil => Some(left),
        TermsLink::Cons(first, rest) => {
            let left = weigh(first, sizes, level, left)?;
            weigh_terms(rest, sizes, level, left)
        }
    }
}

// The number of nodes that an index counts, by its place among the arguments.
#[tactic(auto, using(crate::proofs::Places::size_outside, crate::proofs::Places::size_inside))]
fn size_at(sizes: &[u32], level: u64, index: u32) -> u32
    ensures { result ≡ size_for sizes.now level index }
{
    let inner = u64::from(index) + 1;
    if level < inner {
        return 1;
    }
    sizes.get((level - inner) as usize).copied().unwrap_or(1)
}
