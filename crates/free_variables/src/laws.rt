//! The laws of free variables. Each function does nothing: its contract is the law.
ghost use Rattle.std.specs.Prelude.{◌≡◌, ℕ, true, ◌||◌, List};
ghost use Rattle.fol.specs.declared.symbols.Var.{Var as Variable};
ghost use Rattle.fol.specs.Syntax.{Formula, Pred, Term};
ghost use Rattle.fol.specs.Formed.{is_formed_at, is_formed_term_at, IsFormedVar, IsFormedPred};
ghost use Rattle.finite.specs.Finite as set;
ghost use Rattle.free_variables.specs.Fresh.{least_outside, IsLeastOutside};
ghost use Rattle.free_variables.specs.Sets.{VarSet, SymSet};
ghost use Rattle.free_variables.specs.Occurrence.{is_free_in, is_free_in_term, is_pred_in, vars_formula, vars_term, preds_formula};

/// A set with the variables or predicate symbols of a formula or term has them and what it had.
pub fn collected_members()
    ensures formula { (f : Formula) (vs : VarSet) (v : Variable) → set.has (vars_formula f vs) v ≡ (is_free_in v f || set.has vs v) }
    ensures term { (t : Term) (vs : VarSet) (v : Variable) → set.has (vars_term t vs) v ≡ (is_free_in_term v t || set.has vs v) }
    ensures preds { (f : Formula) (ss : SymSet) (p : Pred) → set.has (preds_formula f ss) p ≡ (is_pred_in p f || set.has ss p) }
{}

/// The free variables and predicate symbols of well-formed values are well formed.
pub fn well_formed_members()
    ensures formula { (v : Variable) (f : Formula) (k : ℕ) → is_formed_at k f ≡ true → is_free_in v f ≡ true → IsFormedVar v }
    ensures term { (v : Variable) (t : Term) (k : ℕ) → is_formed_term_at k t ≡ true → is_free_in_term v t ≡ true → IsFormedVar v }
    ensures pred { (p : Pred) (f : Formula) (k : ℕ) → is_formed_at k f ≡ true → is_pred_in p f ≡ true → IsFormedPred p }
{}

/// There is a least numbered variable outside each list.
pub fn least_fresh_variable()
    ensures { (vs : List Variable) → IsLeastOutside vs (least_outside vs) }
{}
