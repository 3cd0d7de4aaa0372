//! Maps without the bindings that aren't needed.
ghost use Rattle.std.specs.Prelude.{◌≡◌, true, not, ◌&&◌, IfOk};
ghost use Rattle.std.specs.FinMap as fin;
ghost use Rattle.std.specs.Ordering.{eq_by_cmp};
ghost use Rattle.fol.specs.declared.symbols.Var.{Var as Variable};
ghost use Rattle.fol.specs.Syntax.{free};
ghost use Rattle.fol.specs.Order.{term_cmp};
ghost use Rattle.finite.specs.Finite as set;
ghost use Rattle.substitution.specs.Image.{image_term, IsFormedMap};
ghost use Rattle.substitution.specs.Restriction.{restricted};

use crate::maps::Subst;
use fol::{Term, TermNode, Var};
use free_variables::Vars;
use std::alloc::{AllocError, Global};

// Whether the term is the variable.
fn is_variable(term: &Term, var: &Var) -> bool
    ensures { result ≡ eq_by_cmp term_cmp term.now (free var.now) }
{
    match term.node() {
        TermNode::Free(other) => other == var,
        _ => false,
    }
}

// Whether a binding is of a variable in the set, and doesn't send it to itself.
fn is_needed(vars: &Vars, var: &Var, term: &Term) -> bool
    ensures { result ≡ (set.has vars.now var.now && not (eq_by_cmp term_cmp term.now (free var.now))) }
{
    vars.has(var) && !is_variable(term, var)
}

impl Subst {
    /// The map's bindings of variables in the set, but for those that send a variable to itself. It does the same to all formulas whose
    /// free variables are in the set.
    pub fn restrict(&self, alloc: Global, vars: &Vars) -> Result<Subst, AllocError>
        ensures value { IfOk result (λ map. map ≡ restricted self.now vars.now) }
        ensures agrees { IfOk result (λ map. (v : Variable) → set.has vars.now v ≡ true → image_term (fin.get map) (free v) ≡ image_term (fin.get self.now) (free v)) }
        ensures needless { ((v : Variable) → set.has vars.now v ≡ true → image_term (fin.get self.now) (free v) ≡ free v) → IfOk result (λ map. map ≡ fin.empty) }
        ensures formed { IsFormedMap (fin.get self.now) → IfOk result (λ map. IsFormedMap (fin.get map)) }
    {
        let mut needed = Subst::new(alloc);
        for (var, term) in self.as_slice() {
            if is_needed(vars, var, term) {
                needed.set(var.copy()?, term.copy()?)?;
            }
        }
        Ok(needed)
    }
}
