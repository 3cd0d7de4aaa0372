//! Which clauses and which steps of refutations the text of a reply can tell.
ghost use Rattle.std.specs.Prelude.{◌≡◌, true, ℕ, ◌<◌, ◌^◌, IsTrue};
ghost use Rattle.std.specs.List.{All};
ghost use Rattle.std.specs.FinMap as fin;
ghost use Rattle.fol.specs.declared.symbols.Var.TheVariants.{Num};
ghost use Rattle.fol.specs.Formed.{IsFormed};
ghost use Rattle.free_variables.specs.Occurrence.{is_free_in_term, is_free_in_terms};
ghost use Rattle.fol.specs.Syntax.{free};
ghost use Rattle.refutations.specs.Refutations.{IsFormedStep, AreFormedSteps};
ghost use Rattle.reply_lines.specs.Shown.{IsShownFormula, IsShownTerm, IsShownBinding, IsShownStep, IsShownClause};

use fol::{
    Formula, FormulaNode, Term, TermNode, Terms, TermsLink, Var, well_formed_term, well_formed_var,
};
use lk_rules::Sequent;
use refutations::ResStep;
use substitution::Subst;

// The number of a numbered variable fits 64 bits.
#[tactic(auto, using(crate::proofs::ShownParts::same_number, crate::proofs::ShownParts::no_number))]
fn know_number(var: &Var)
    ensures { (n : ℕ) → is_free_in_term (Num n) (free var.now) ≡ true → n < 2 ^ 64 }
{
    match var {
        Var::Num(number) => {
            let _number = *number;
        }
        Var::Word(_) => {}
    }
}

// So do the numbers of all numbered variables in a term.
#[cycle(numbers)]
#[tactic(auto, using(crate::proofs::ShownParts::no_free_in_term))]
fn know_numbers(term: &Term)
    ensures { (n : ℕ) → is_free_in_term (Num n) term.now ≡ true → n < 2 ^ 64 }
{
    if !term.has_free() {
        return;
    }
    match term.node() {
        TermNode::Free(var) => know_number(var),
        TermNode::Bound(_) => {}
        TermNode::App(_, terms) => know_all_numbers(terms),
    }
}

#[cycle(numbers)]
#[tactic(auto, using(crate::proofs::ShownParts::no_free_in_terms, crate::proofs::ShownParts::in_both))]
fn know_all_numbers(terms: &Terms)
    ensures { (n : ℕ) → is_free_in_terms (Num n) terms.now ≡ true → n < 2 ^ 64 }
{
    if !terms.has_free() {
        return;
    }
    match terms.link() {
        TermsLink::Nil => {}
        TermsLink::Cons(term, rest) => {
            know_numbers(term);
            know_all_numbers(rest);
        }
    }
}

// Whether a formula is an atom whose symbol stands for no formula.
#[tactic(auto, using(crate::proofs::ShownParts::atom_shown))]
fn is_shown_atom(formula: &Formula) -> bool
    requires { IsFormed formula.now }
    ensures { IsTrue result → IsShownFormula formula.now }
{
    match formula.node() {
        FormulaNode::Atom(_, terms) => {
            know_all_numbers(terms);
            !formula.has_body()
        }
        FormulaNode::Top
        | FormulaNode::Bot
        | FormulaNode::Not(_)
        | FormulaNode::And(_, _)
        | FormulaNode::Or(_, _)
        | FormulaNode::Imp(_, _)
        | FormulaNode::All(_)
        | FormulaNode::Ex(_) => false,
    }
}

fn are_shown_atoms(formulas: &[Formula]) -> bool
    requires { All IsFormed formulas.now }
    ensures { IsTrue result → All IsShownFormula formulas.now }
{
    for formula in formulas {
        if !is_shown_atom(formula) {
            return false;
        }
    }
    true
}

fn is_shown_clause(clause: &Sequent) -> bool
    ensures { IsTrue result → IsShownClause clause.now }
{
    are_shown_atoms(clause.left.as_slice()) && are_shown_atoms(clause.right.as_slice())
}

/// Whether clauses have only atoms whose symbols stand for no formulas.
pub fn are_shown_clauses(clauses: &[Sequent]) -> bool
    ensures { IsTrue result → All IsShownClause clauses.now }
{
    for clause in clauses {
        if !is_shown_clause(clause) {
            return false;
        }
    }
    true
}

fn is_shown_term(term: &Term) -> bool
    ensures { IsTrue result → IsShownTerm term.now }
{
    know_numbers(term);
    well_formed_term(term)
}

fn is_shown_binding(var: &Var, term: &Term) -> bool
    ensures { IsTrue result → IsShownBinding (var.now, term.now) }
{
    know_number(var);
    well_formed_var(var) && is_shown_term(term)
}

fn is_shown_map(map: &Subst) -> bool
    ensures { IsTrue result → All IsShownBinding (fin.entries map.now) }
{
    for (var, term) in map.as_slice() {
        if !is_shown_binding(var, term) {
            return false;
        }
    }
    true
}

fn is_shown_step(step: &ResStep) -> bool
    requires { IsFormedStep step.now }
    ensures { IsTrue result → IsShownStep step.now }
{
    match step {
        ResStep::Input(clause) => {
            let _clause = *clause;
            true
        }
        ResStep::Subst(of, map) => {
            let _of = *of;
            is_shown_map(map)
        }
        ResStep::Resolve {
            positive,
            negative,
            atom,
        } => {
            let _positive = *positive;
            let _negative = *negative;
            is_shown_atom(atom)
        }
    }
}

/// Whether steps name only maps of well-formed variables and terms, and atoms whose symbols stand for no formulas.
pub fn are_shown_steps(steps: &[ResStep]) -> bool
    requires { AreFormedSteps steps.now }
    ensures { IsTrue result → All IsShownStep steps.now }
{
    for step in steps {
        if !is_shown_step(step) {
            return false;
        }
    }
    true
}
