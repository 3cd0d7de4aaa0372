//! The texts of formulas, terms and sequents.
ghost use Rattle.std.specs.Prelude.{◌≡◌, true, map, IfOk};
ghost use Rattle.std.specs.List.{list_all, All};
ghost use Rattle.finite.specs.Finite as set;
ghost use Rattle.fol.specs.Formed.{IsFormed, IsFormedTerm, is_printable};
ghost use Rattle.tptp_print.specs.Canonical.{canonical, canonical_term};

use crate::choice::{choose, numbers_of};
use crate::formulas::{push_formula, quantifier_depth};
use crate::terms::push_term;
use fol::{Formula, Term, Text};
use free_variables::{Texts, free_vars};
use lk_rules::Sequent;
use std::alloc::{AllocError, Global};

#[tactic(auto, unfolding(crate::specs::Canonical::canonical))]
fn formula_bytes(alloc: Global, formula: &Formula) -> Result<Vec<u8>, AllocError>
    requires { IsFormed formula.now }
    ensures { IfOk result (λ v. v.items ≡ canonical formula.now) }
{
    let vars = free_vars(alloc, formula)?;
    let numbers = numbers_of(alloc, &vars)?;
    let names = choose(alloc, &numbers, quantifier_depth(formula))?;
    let mut out = Vec::new(alloc);
    push_formula(&mut out, alloc, &names, 0, formula)?;
    Ok(out)
}

/// The canonical text of a formula. It takes time linear in the text, up to a logarithm for the formula's free variables.
#[tactic(auto, using(crate::proofs::Printable::canonical_printable))]
pub fn print_formula(alloc: Global, formula: &Formula) -> Result<Text, AllocError>
    requires { IsFormed formula.now }
    ensures text { IfOk result (λ t. t ≡ canonical formula.now) }
    ensures printable { IfOk result (λ t. list_all is_printable t ≡ true) }
{
    let bytes = formula_bytes(alloc, formula)?;
    let text = Text::from_vec(alloc, bytes)?;
    Ok(text)
}

#[tactic(auto, unfolding(crate::specs::Canonical::canonical_term))]
fn term_bytes(alloc: Global, term: &Term) -> Result<Vec<u8>, AllocError>
    requires { IsFormedTerm term.now }
    ensures { IfOk result (λ v. v.items ≡ canonical_term term.now) }
{
    let mut out = Vec::new(alloc);
    push_term(&mut out, alloc, &[], 0, term)?;
    Ok(out)
}

/// The canonical text of a term.
#[tactic(auto, using(crate::proofs::Printable::canonical_term_printable))]
pub fn print_term(alloc: Global, term: &Term) -> Result<Text, AllocError>
    requires { IsFormedTerm term.now }
    ensures text { IfOk result (λ t. t ≡ canonical_term term.now) }
    ensures printable { IfOk result (λ t. list_all is_printable t ≡ true) }
{
    let bytes = term_bytes(alloc, term)?;
    let text = Text::from_vec(alloc, bytes)?;
    Ok(text)
}

fn print_formulas(alloc: Global, formulas: &[Formula]) -> Result<Texts, AllocError>
    requires { All IsFormed formulas.now }
    ensures { IfOk result (λ texts. texts ≡ map canonical formulas.now) }
{
    let mut texts = Texts::new(alloc);
    for formula in formulas {
        texts.push(print_formula(alloc, formula)?)?;
    }
    Ok(texts)
}

/// The canonical texts of the two sides of a sequent, each in the rising order of its formulas.
pub fn print_sequent(alloc: Global, sequent: &Sequent) -> Result<(Texts, Texts), AllocError>
    ensures left { IfOk result (λ texts. texts.0 ≡ map canonical (set.listing sequent.now.left)) }
    ensures right { IfOk result (λ texts. texts.1 ≡ map canonical (set.listing sequent.now.right)) }
{
    let left = print_formulas(alloc, sequent.left())?;
    let right = print_formulas(alloc, sequent.right())?;
    Ok((left, right))
}
