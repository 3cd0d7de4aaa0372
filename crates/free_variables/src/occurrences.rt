//! Which variables are free in a formula, and which predicate symbols stand in it, one for each occurrence.
ghost use Rattle.std.specs.Prelude.{◌≡◌, ◌++◌, IfOk};
ghost use Rattle.free_variables.specs.Occurrence.{is_free_in, is_free_in_term, is_free_in_terms, var_list, var_list_term, var_list_terms, pred_list};

use fol::{Formula, FormulaNode, Predicate, Term, TermNode, Terms, TermsLink, Var};
use std::alloc::AllocError;

/// Whether the variable is free in the formula.
#[tactic(auto, using(crate::proofs::ShutLaws::shut_free))]
pub fn occurs_free(var: &Var, formula: &Formula) -> bool
    ensures { result ≡ is_free_in var.now formula.now }
{
    if !formula.has_free() {
        return false;
    }
    match formula.node() {
        FormulaNode::Atom(_, terms) => occurs_in_terms(var, terms),
        FormulaNode::Top | FormulaNode::Bot => false,
        FormulaNode::Not(body) | FormulaNode::All(body) | FormulaNode::Ex(body) => {
            occurs_free(var, body)
        }
        FormulaNode::And(first, second)
        | FormulaNode::Or(first, second)
        | FormulaNode::Imp(first, second) => occurs_free(var, first) || occurs_free(var, second),
    }
}

/// Whether the variable stands in the term.
#[cycle(occurs)]
#[tactic(auto, using(crate::proofs::ShutLaws::shut_free_term))]
pub fn occurs_in_term(var: &Var, term: &Term) -> bool
    ensures { result ≡ is_free_in_term var.now term.now }
{
    if !term.has_free() {
        return false;
    }
    match term.node() {
        TermNode::Free(other) => var == other,
        TermNode::Bound(_) => false,
        TermNode::App(_, terms) => occurs_in_terms(var, terms),
    }
}

#[cycle(occurs)]
#[tactic(auto, using(crate::proofs::ShutLaws::shut_free_terms))]
fn occurs_in_terms(var: &Var, terms: &Terms) -> bool
    ensures { result ≡ is_free_in_terms var.now terms.now }
{
    if !terms.has_free() {
        return false;
    }
    match terms.link() {
        TermsLink::Nil => false,
        TermsLink::Cons(term, rest) => occurs_in_term(var, term) || occurs_in_terms(var, rest),
    }
}

/// Appends the free variables of the formula, from the left, one for each occurrence. After an error some of them may stand there.
#[tactic(auto, using(crate::proofs::ShutLaws::shut_list))]
pub fn push_free_vars(list: &mut Vec<Var>, formula: &Formula) -> Result<(), AllocError>
    ensures { IfOk result (λ _. list.new.items ≡ list.old.items ++ var_list formula.now) }
{
    if !formula.has_free() {
        return Ok(());
    }
    match formula.node() {
        FormulaNode::Atom(_, terms) => push_terms_vars(list, terms),
        FormulaNode::Top | FormulaNode::Bot => Ok(()),
        FormulaNode::Not(body) | FormulaNode::All(body) | FormulaNode::Ex(body) => {
            push_free_vars(list, body)
        }
        FormulaNode::And(first, second)
        | FormulaNode::Or(first, second)
        | FormulaNode::Imp(first, second) => {
            push_free_vars(list, first)?;
            push_free_vars(list, second)
        }
    }
}

/// Appends the variables of the term, from the left, one for each occurrence. After an error some of them may stand there.
#[cycle(push_vars)]
#[tactic(auto, using(crate::proofs::ShutLaws::shut_list_term))]
pub fn push_term_vars(list: &mut Vec<Var>, term: &Term) -> Result<(), AllocError>
    ensures { IfOk result (λ _. list.new.items ≡ list.old.items ++ var_list_term term.now) }
{
    if !term.has_free() {
        return Ok(());
    }
    match term.node() {
        TermNode::Free(var) => {
            list.push(var.copy()?)?;
            Ok(())
        }
        TermNode::Bound(_) => Ok(()),
        TermNode::App(_, terms) => push_terms_vars(list, terms),
    }
}

#[cycle(push_vars)]
#[tactic(auto, using(crate::proofs::ShutLaws::shut_list_terms))]
fn push_terms_vars(list: &mut Vec<Var>, terms: &Terms) -> Result<(), AllocError>
    ensures { IfOk result (λ _. list.new.items ≡ list.old.items ++ var_list_terms terms.now) }
{
    if !terms.has_free() {
        return Ok(());
    }
    match terms.link() {
        TermsLink::Nil => Ok(()),
        TermsLink::Cons(term, rest) => {
            push_term_vars(list, term)?;
            push_terms_vars(list, rest)
        }
    }
}

/// Appends the predicate symbols of the formula, from the left, one for each atom, without those inside bodies. After an error some of them may
/// stand there.
pub fn push_preds(list: &mut Vec<Predicate>, formula: &Formula) -> Result<(), AllocError>
    ensures { IfOk result (λ _. list.new.items ≡ list.old.items ++ pred_list formula.now) }
{
    match formula.node() {
        FormulaNode::Atom(predicate, _) => {
            list.push(predicate.copy()?)?;
            Ok(())
        }
        FormulaNode::Top | FormulaNode::Bot => Ok(()),
        FormulaNode::Not(body) | FormulaNode::All(body) | FormulaNode::Ex(body) => {
            push_preds(list, body)
        }
        FormulaNode::And(first, second)
        | FormulaNode::Or(first, second)
        | FormulaNode::Imp(first, second) => {
            push_preds(list, first)?;
            push_preds(list, second)
        }
    }
}
