//! Links of a clause: bits for any two places of arguments where one variable stands. An instance has one term at both, so that a clause subsumes
//! only such clauses as have its links.
ghost use Rattle.std.specs.Prelude.{◌≡◌, ◌++◌, IfOk, OnOk};
ghost use Rattle.res_prover.specs.Marks.{bit_of};
ghost use Rattle.res_prover.specs.Links.{variable_number, argument_places, atom_places, side_places, clause_places, is_one_variable, needs_at, needs_of, offers_at, offers_of, AreLinksOf};

use crate::marks::bit;
use fol::{Formula, FormulaNode, Term, TermNode, Terms, TermsLink, Var, mix};
use lk_rules::Sequent;
use std::alloc::{AllocError, Global};

/// What stands at a place of an argument.
#[derive(Clone, Copy)]
pub(crate) struct Place {
    /// A number for the side, the predicate symbol and the place among the arguments.
    pub number: u64,
    /// The fingerprint of the term.
    pub fingerprint: u64,
    /// The number of the variable that the term is.
    pub variable: Option<u64>,
}

// The number of a numbered variable.
fn numbered_variable(term: &Term) -> Option<u64>
    ensures { result ≡ variable_number term.now }
{
    match term.node() {
        TermNode::Free(Var::Num(number)) => Some(*number),
        TermNode::Free(Var::Word(_)) | TermNode::Bound(_) | TermNode::App(_, _) => None,
    }
}

// Adds the places of arguments, where the first has this number.
fn push_arguments(places: &mut Vec<Place>, number: u64, terms: &Terms) -> Result<(), AllocError>
    ensures { OnOk result (places.new.items ≡ places.old.items ++ argument_places number terms.now) }
{
    match terms.link() {
        TermsLink::Nil => Ok(()),
        TermsLink::Cons(term, rest) => {
            let fingerprint = term.fingerprint();
            let variable = numbered_variable(term);
            places.push(Place {
                number,
                fingerprint,
                variable,
            })?;
            push_arguments(places, mix(number, 0), rest)
        }
    }
}

// Adds the places of an atom.
fn push_atom(places: &mut Vec<Place>, side: u64, atom: &Formula) -> Result<(), AllocError>
    ensures { OnOk result (places.new.items ≡ places.old.items ++ atom_places side atom.now) }
{
    let FormulaNode::Atom(predicate, terms) = atom.node() else {
        return Ok(());
    };
    push_arguments(places, mix(predicate.fingerprint(), side), terms)
}

// Adds the places of some atoms.
fn push_side(places: &mut Vec<Place>, side: u64, atoms: &[Formula]) -> Result<(), AllocError>
    ensures { OnOk result (places.new.items ≡ places.old.items ++ side_places side atoms.now) }
{
    let [first, rest @ ..] = atoms else {
        return Ok(());
    };
    push_atom(places, side, first)?;
    push_side(places, side, rest)
}

// All places of a clause.
fn places(alloc: Global, clause: &Sequent) -> Result<Vec<Place>, AllocError>
    ensures { IfOk result (λ v. v.items ≡ clause_places clause.now) }
{
    let mut places = Vec::with_capacity(alloc, 16)?;
    push_side(&mut places, 1, clause.left())?;
    push_side(&mut places, 2, clause.right())?;
    Ok(places)
}

fn are_one_variable(one: Place, other: Place) -> bool
    ensures { result ≡ is_one_variable one other }
{
    match (one.variable, other.variable) {
        (Some(number), Some(same)) => number == same,
        _ => false,
    }
}

// The bits for a place and each other one with the same variable.
fn needed_at(one: Place, others: &[Place]) -> u64
    ensures { result ≡ needs_at one others.now }
{
    let [first, rest @ ..] = others else {
        return 0;
    };
    if one.number != first.number && are_one_variable(one, *first) {
        bit(mix(one.number, first.number)) | needed_at(one, rest)
    } else {
        needed_at(one, rest)
    }
}

fn needed(each: &[Place], others: &[Place]) -> u64
    ensures { result ≡ needs_of each.now others.now }
{
    let [first, rest @ ..] = each else {
        return 0;
    };
    needed_at(*first, others) | needed(rest, others)
}

// The bits for a place and each other one with the same term, as the fingerprints tell.
fn offered_at(one: Place, others: &[Place]) -> u64
    ensures { result ≡ offers_at one others.now }
{
    let [first, rest @ ..] = others else {
        return 0;
    };
    if one.number != first.number && one.fingerprint == first.fingerprint {
        bit(mix(one.number, first.number)) | offered_at(one, rest)
    } else {
        offered_at(one, rest)
    }
}

fn offered(each: &[Place], others: &[Place]) -> u64
    ensures { result ≡ offers_of each.now others.now }
{
    let [first, rest @ ..] = each else {
        return 0;
    };
    offered_at(*first, others) | offered(rest, others)
}

/// The bits that clauses have which the clause subsumes, and those that clauses have which subsume it.
#[derive(Clone, Copy)]
pub(crate) struct Links {
    pub needed: u64,
    pub offered: u64,
}

/// The links of a clause.
pub(crate) fn clause_links(alloc: Global, clause: &Sequent) -> Result<Links, AllocError>
    ensures { IfOk result (AreLinksOf clause.now) }
{
    let places = places(alloc, clause)?;
    let needed = needed(places.as_slice(), places.as_slice());
    let offered = offered(places.as_slice(), places.as_slice());
    Ok(Links { needed, offered })
}
