//! The terms of variables that a search for a map has found. It takes the last ones back.
ghost use Rattle.std.specs.Prelude.{◌≡◌, IfOk, OnOk, option_map};
ghost use Rattle.std.specs.Ordering.{eq_by_cmp};
ghost use Rattle.std.specs.FinMap as fin;
ghost use Rattle.fol.specs.Order.{term_cmp};
ghost use Rattle.unify_laws.specs.Matching.{with_variable, match_term as match_of, match_terms as matches_of};
ghost use Rattle.fol_unify.specs.Matches.{map_if};
ghost use Rattle.clause_laws.specs.Searching.{match_atom as match_of_atom};
ghost use Rattle.res_prover.specs.Bindings.{map_of, IsFront};

use fol::{Formula, FormulaNode, Term, TermNode, Terms, TermsLink, Var};
use std::alloc::AllocError;

/// A variable with its term.
#[derive(Drop)]
pub(crate) struct Binding<'a> {
    pub variable: &'a Var,
    pub term: &'a Term,
}

// Whether the term of the variable is this one, where it has a term.
fn has_term(bindings: &[Binding<'_>], variable: &Var, term: &Term) -> Option<bool>
    ensures { result ≡ option_map (λ s. eq_by_cmp term_cmp s term.now) (fin.get (map_of bindings.now) variable.now) }
{
    let mut place = bindings.len();
    while place > 0 {
        place -= 1;
        let binding = &bindings[place];
        if variable == binding.variable {
            return Some(binding.term == term);
        }
    }
    None
}

// Whether the variable may become the term: it has no term yet, or this one.
fn match_variable<'a>(
    bindings: &mut Vec<Binding<'a>>,
    variable: &'a Var,
    term: &'a Term,
) -> Result<bool, AllocError>
    ensures found { IfOk result (λ found. map_if found (map_of bindings.new.items) ≡ with_variable variable.now term.now (map_of bindings.old.items) (fin.get (map_of bindings.old.items) variable.now)) }
    ensures front { OnOk result (IsFront bindings.old.items bindings.new.items) }
{
    if let Some(is_same) = has_term(bindings.as_slice(), variable, term) {
        return Ok(is_same);
    }
    bindings.push(Binding { variable, term })?;
    Ok(true)
}

// Whether further variables may have terms under which the one term becomes the other.
#[cycle(match_term)]
#[tactic(auto, using(crate::proofs::BindingLaws::front_itself, crate::proofs::BindingLaws::front_later))]
fn match_term<'a>(
    bindings: &mut Vec<Binding<'a>>,
    term: &'a Term,
    other: &'a Term,
) -> Result<bool, AllocError>
    ensures found { IfOk result (λ found. map_if found (map_of bindings.new.items) ≡ match_of term.now other.now (map_of bindings.old.items)) }
    ensures front { OnOk result (IsFront bindings.old.items bindings.new.items) }
{
    match term.node() {
        TermNode::Free(variable) => match_variable(bindings, variable, other),
        TermNode::Bound(index) => match other.node() {
            TermNode::Bound(same) => Ok(index == same),
            TermNode::Free(_) | TermNode::App(_, _) => Ok(false),
        },
        TermNode::App(symbol, terms) => match other.node() {
            TermNode::App(same, others) if symbol == same => match_terms(bindings, terms, others),
            TermNode::Free(_) | TermNode::Bound(_) | TermNode::App(_, _) => Ok(false),
        },
    }
}

#[cycle(match_term)]
#[tactic(auto, using(crate::proofs::BindingLaws::front_itself, crate::proofs::BindingLaws::front_later))]
fn match_terms<'a>(
    bindings: &mut Vec<Binding<'a>>,
    terms: &'a Terms,
    others: &'a Terms,
) -> Result<bool, AllocError>
    ensures found { IfOk result (λ found. map_if found (map_of bindings.new.items) ≡ matches_of terms.now others.now (map_of bindings.old.items)) }
    ensures front { OnOk result (IsFront bindings.old.items bindings.new.items) }
{
    match (terms.link(), others.link()) {
        (TermsLink::Nil, TermsLink::Nil) => Ok(true),
        (TermsLink::Cons(first, rest), TermsLink::Cons(other, further)) => {
            if !match_term(bindings, first, other)? {
                return Ok(false);
            }
            match_terms(bindings, rest, further)
        }
        (TermsLink::Nil, TermsLink::Cons(_, _)) | (TermsLink::Cons(_, _), TermsLink::Nil) => {
            Ok(false)
        }
    }
}

/// Whether further variables may have terms under which the atom becomes the other one. These are added, and after `false` perhaps some.
#[tactic(auto, using(crate::proofs::BindingLaws::front_itself))]
pub(crate) fn match_atom<'a>(
    bindings: &mut Vec<Binding<'a>>,
    atom: &'a Formula,
    other: &'a Formula,
) -> Result<bool, AllocError>
    ensures found { IfOk result (λ found. map_if found (map_of bindings.new.items) ≡ match_of_atom atom.now other.now (map_of bindings.old.items)) }
    ensures front { OnOk result (IsFront bindings.old.items bindings.new.items) }
{
    let FormulaNode::Atom(predicate, terms) = atom.node() else {
        return Ok(false);
    };
    let FormulaNode::Atom(same, others) = other.node() else {
        return Ok(false);
    };
    if predicate != same {
        return Ok(false);
    }
    match_terms(bindings, terms, others)
}
