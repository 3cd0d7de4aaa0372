//! The variables of clauses.
ghost use Rattle.std.specs.Prelude.{◌≡◌, [], ◌∷◌, IfOk, OnOk};
ghost use Rattle.std.specs.BTreeSet.{contains};
ghost use Rattle.fol.specs.Order.{var_cmp};
ghost use Rattle.free_variables.specs.Occurrence.{var_list, var_list_term, var_list_terms};
ghost use Rattle.refutations.specs.Clauses.{first_occurrences as firsts_of, clause_of as clause_meant, is_clause as is_disjunction};
ghost use Rattle.proof_trees.specs.FormulaSets.{is_atom as is_atomic};
ghost use Rattle.refutations.specs.FirstOccurrences.{GoesOn};

use crate::clause::{Clause, VarList};
use fol::{Formula, FormulaNode, Term, TermNode, Terms, TermsLink, Var};
use std::alloc::{AllocError, Global};
use std::collections::BTreeSet;

// Appends the variable unless it has been seen.
fn push_new(seen: &mut BTreeSet<Var>, firsts: &mut Vec<Var>, var: &Var) -> Result<(), AllocError>
    ensures { OnOk result (GoesOn firsts.old.items (contains var_cmp seen.old) firsts.new.items (contains var_cmp seen.new) (var.now ∷ [])) }
{
    if seen.contains(var) {
        return Ok(());
    }
    seen.insert(var.copy()?)?;
    firsts.push(var.copy()?)?;
    Ok(())
}

// Appends the free variables of the formula that haven't been seen, from the left.
#[tactic(auto, using(crate::proofs::FirstOccurrences::shut_on, crate::proofs::FirstOccurrences::none_on, crate::proofs::FirstOccurrences::both_on))]
fn push_new_vars(
    seen: &mut BTreeSet<Var>,
    firsts: &mut Vec<Var>,
    formula: &Formula,
) -> Result<(), AllocError>
    ensures { OnOk result (GoesOn firsts.old.items (contains var_cmp seen.old) firsts.new.items (contains var_cmp seen.new) (var_list formula.now)) }
{
    if !formula.has_free() {
        return Ok(());
    }
    match formula.node() {
        FormulaNode::Atom(_, terms) => push_new_in_terms(seen, firsts, terms),
        FormulaNode::Top | FormulaNode::Bot => Ok(()),
        FormulaNode::Not(body) | FormulaNode::All(body) | FormulaNode::Ex(body) => {
            push_new_vars(seen, firsts, body)
        }
        FormulaNode::And(first, second)
        | FormulaNode::Or(first, second)
        | FormulaNode::Imp(first, second) => {
            push_new_vars(seen, firsts, first)?;
            push_new_vars(seen, firsts, second)
        }
    }
}

#[cycle(push_new)]
#[tactic(auto, using(crate::proofs::FirstOccurrences::shut_on_term, crate::proofs::FirstOccurrences::none_on))]
fn push_new_in_term(
    seen: &mut BTreeSet<Var>,
    firsts: &mut Vec<Var>,
    term: &Term,
) -> Result<(), AllocError>
    ensures { OnOk result (GoesOn firsts.old.items (contains var_cmp seen.old) firsts.new.items (contains var_cmp seen.new) (var_list_term term.now)) }
{
    if !term.has_free() {
        return Ok(());
    }
    match term.node() {
        TermNode::Free(var) => push_new(seen, firsts, var),
        TermNode::Bound(_) => Ok(()),
        TermNode::App(_, terms) => push_new_in_terms(seen, firsts, terms),
    }
}

#[cycle(push_new)]
#[tactic(auto, using(crate::proofs::FirstOccurrences::shut_on_terms, crate::proofs::FirstOccurrences::none_on, crate::proofs::FirstOccurrences::both_on))]
fn push_new_in_terms(
    seen: &mut BTreeSet<Var>,
    firsts: &mut Vec<Var>,
    terms: &Terms,
) -> Result<(), AllocError>
    ensures { OnOk result (GoesOn firsts.old.items (contains var_cmp seen.old) firsts.new.items (contains var_cmp seen.new) (var_list_terms terms.now)) }
{
    if !terms.has_free() {
        return Ok(());
    }
    match terms.link() {
        TermsLink::Nil => Ok(()),
        TermsLink::Cons(term, rest) => {
            push_new_in_term(seen, firsts, term)?;
            push_new_in_terms(seen, firsts, rest)
        }
    }
}

/// The free variables of a formula, in the order in which each occurs first. A variable that occurs again takes no memory.
#[tactic(auto, using(crate::proofs::FirstOccurrences::all_on))]
pub fn own_variables(alloc: Global, formula: &Formula) -> Result<Vec<Var>, AllocError>
    ensures { IfOk result (λ vars. vars.items ≡ firsts_of (var_list formula.now)) }
{
    let mut seen = BTreeSet::new(alloc);
    let mut firsts = Vec::new(alloc);
    push_new_vars(&mut seen, &mut firsts, formula)?;
    Ok(firsts)
}

/// The formula as a clause, with its variables in the order in which each occurs first.
pub fn clause_of(alloc: Global, formula: &Formula) -> Result<Clause, AllocError>
    ensures { IfOk result (λ clause. clause ≡ clause_meant formula.now) }
{
    let vars = own_variables(alloc, formula)?;
    Ok(Clause {
        matrix: formula.copy()?,
        vars: VarList::from_vec(vars),
    })
}

fn is_atom(formula: &Formula) -> bool
    ensures { result ≡ is_atomic formula.now }
{
    match formula.node() {
        FormulaNode::Atom(..) => true,
        FormulaNode::Top
        | FormulaNode::Bot
        | FormulaNode::Not(_)
        | FormulaNode::And(..)
        | FormulaNode::Or(..)
        | FormulaNode::Imp(..)
        | FormulaNode::All(_)
        | FormulaNode::Ex(_) => false,
    }
}

/// Whether the formula is a disjunction of literals: of atoms, negated atoms and `$false`.
pub fn is_clause(formula: &Formula) -> bool
    ensures { result ≡ is_disjunction formula.now }
{
    match formula.node() {
        FormulaNode::Or(first, second) => is_clause(first) && is_clause(second),
        FormulaNode::Not(body) => is_atom(body),
        FormulaNode::Bot | FormulaNode::Atom(..) => true,
        FormulaNode::Top
        | FormulaNode::And(..)
        | FormulaNode::Imp(..)
        | FormulaNode::All(_)
        | FormulaNode::Ex(_) => false,
    }
}
