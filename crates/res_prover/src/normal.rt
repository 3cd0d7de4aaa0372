//! Clauses with numbered variables, and renamed apart.
ghost use Rattle.std.specs.Prelude.{◌≡◌, ◌++◌, ◌∷◌, List, IfOk, OnOk};
ghost use Rattle.std.specs.FinMap as fin;
ghost use Rattle.fol.specs.declared.symbols.Var.{Var as Variable};
ghost use Rattle.free_variables.specs.Fresh.{is_among};
ghost use Rattle.refutations.specs.Clauses.{first_occurrences};
ghost use Rattle.res_prover.specs.Lists.{unlisted};
ghost use Rattle.clause_laws.specs.Normal.{numbered, variables as variables_of, normal as normal_of};

use crate::imaging::image_by;
use fol::{Term, Var};
use lk_rules::Sequent;
use std::alloc::{AllocError, Global};
use substitution::Subst;

fn is_listed(vars: &[Var], var: &Var) -> bool
    ensures { result ≡ is_among var.now vars.now }
{
    vars.iter().any(|other| var == other)
}

// Adds the variable, unless it is listed.
fn push_new(firsts: &mut Vec<Var>, var: &Var) -> Result<(), AllocError>
    ensures { OnOk result ((vs : List Variable) → firsts.new.items ++ unlisted firsts.new.items vs ≡ firsts.old.items ++ unlisted firsts.old.items (var.now ∷ vs)) }
{
    if is_listed(firsts.as_slice(), var) {
        return Ok(());
    }
    firsts.push(var.copy()?)?;
    Ok(())
}

// The variables of a list, each where it occurs first.
fn first_of(alloc: Global, all: &[Var]) -> Result<Vec<Var>, AllocError>
    ensures { IfOk result (λ v. v.items ≡ first_occurrences all.now) }
{
    let mut firsts = Vec::new(alloc);
    for place in 0..all.len() {
        push_new(&mut firsts, &all[place])?;
    }
    Ok(firsts)
}

/// The variables of the clause, in the order in which each occurs first.
pub(crate) fn variables(alloc: Global, clause: &Sequent) -> Result<Vec<Var>, AllocError>
    ensures { IfOk result (λ v. v.items ≡ variables_of clause.now) }
{
    let mut all = Vec::new(alloc);
    clause.left.push_free_vars(&mut all)?;
    clause.right.push_free_vars(&mut all)?;
    first_of(alloc, all.as_slice())
}

// The map from the variables of a list to their places.
fn numbering(alloc: Global, vars: &[Var]) -> Result<Subst, AllocError>
    ensures { IfOk result (λ m. (v : Variable) → fin.get m v ≡ numbered 0 vars.now v) }
{
    let mut map = Subst::new(alloc);
    let mut place = vars.len();
    while place > 0 {
        place -= 1;
        let number = Term::free(alloc, Var::Num(place as u64))?;
        map.set(vars[place].copy()?, number)?;
    }
    Ok(map)
}

/// The variant whose variables are V0, V1 and so on, in the order in which each occurs first, with the map that makes it.
pub(crate) fn normal(alloc: Global, clause: &Sequent) -> Result<(Sequent, Subst), AllocError>
    ensures { IfOk result (λ r. r.0 ≡ normal_of clause.now) }
{
    let vars = variables(alloc, clause)?;
    let map = numbering(alloc, vars.as_slice())?;
    let image = image_by(alloc, clause, &map)?;
    Ok((image, map))
}
