//! The free variables and the predicate symbols of a formula, as sets.
ghost use Rattle.std.specs.Prelude.{◌≡◌, ℕ, true, IfOk};
ghost use Rattle.fol.specs.declared.symbols.Var.{Var as Variable};
ghost use Rattle.fol.specs.Syntax.{Pred};
ghost use Rattle.fol.specs.Formed.{is_formed_at, is_formed_term_at};
ghost use Rattle.finite.specs.Finite as set;
ghost use Rattle.free_variables.specs.Sets.{AreFormedVars, AreFormedSyms};
ghost use Rattle.free_variables.specs.Occurrence.{is_free_in, is_free_in_term, is_pred_in, vars_formula, vars_term, preds_formula};

use crate::occurrences::{push_free_vars, push_preds, push_term_vars};
use crate::syms::Syms;
use crate::vars::Vars;
use fol::{Formula, Term};
use std::alloc::{AllocError, Global};

/// The free variables of a formula, which may be the body of a quantified one. It takes O(n log n) comparisons for n occurrences.
#[tactic(auto, using(crate::proofs::OccurrenceLaws::free_var_members, crate::proofs::FormedMembers::formed_vars))]
pub fn free_vars(alloc: Global, formula: &Formula) -> Result<Vars, AllocError>
    ensures value { IfOk result (λ vars. vars ≡ vars_formula formula.now set.empty) }
    ensures members { IfOk result (λ vars. (v : Variable) → set.has vars v ≡ is_free_in v formula.now) }
    ensures formed { (k : ℕ) → is_formed_at k formula.now ≡ true → IfOk result AreFormedVars }
{
    let mut list = Vec::new(alloc);
    push_free_vars(&mut list, formula)?;
    Ok(Vars::from_vec(list))
}

/// The variables of a term. It takes O(n log n) comparisons for n occurrences.
#[tactic(auto, using(crate::proofs::OccurrenceLaws::term_var_members, crate::proofs::FormedMembers::formed_term_vars))]
pub fn term_vars(alloc: Global, term: &Term) -> Result<Vars, AllocError>
    ensures value { IfOk result (λ vars. vars ≡ vars_term term.now set.empty) }
    ensures members { IfOk result (λ vars. (v : Variable) → set.has vars v ≡ is_free_in_term v term.now) }
    ensures formed { (k : ℕ) → is_formed_term_at k term.now ≡ true → IfOk result AreFormedVars }
{
    let mut list = Vec::new(alloc);
    push_term_vars(&mut list, term)?;
    Ok(Vars::from_vec(list))
}

/// The predicate symbols of a formula's atoms, without those inside bodies. It takes O(n log n) comparisons for n atoms.
#[tactic(auto, using(crate::proofs::OccurrenceLaws::pred_members, crate::proofs::FormedMembers::formed_preds))]
pub fn preds(alloc: Global, formula: &Formula) -> Result<Syms, AllocError>
    ensures value { IfOk result (λ symbols. symbols ≡ preds_formula formula.now set.empty) }
    ensures members { IfOk result (λ symbols. (p : Pred) → set.has symbols p ≡ is_pred_in p formula.now) }
    ensures formed { (k : ℕ) → is_formed_at k formula.now ≡ true → IfOk result AreFormedSyms }
{
    let mut list = Vec::new(alloc);
    push_preds(&mut list, formula)?;
    Ok(Syms::from_vec(list))
}
