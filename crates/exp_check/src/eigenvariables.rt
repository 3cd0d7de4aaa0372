//! The variables of strong quantifiers: whether they differ, and whether one is free in the sequent.
ghost use Rattle.std.specs.Prelude.{◌≡◌, ◌↔◌, true, false, IfOk, IsNone, option_copied};
ghost use Rattle.std.specs.List.{list_any};
ghost use Rattle.lk_rules.specs.Sequents.{is_free_in_sequent};
ghost use Rattle.expansion_laws.specs.Dependency.{strongs_of};
ghost use Rattle.expansion_laws.specs.Proofs.{are_distinct};
ghost use Rattle.exp_tree.specs.Reads.{expansion_of};
ghost use Rattle.expansion_laws.specs.Eigenvariables.{IsLeast, is_repeated, is_free_eigenvariable};
ghost use Rattle.exp_check.specs.Eigenvariables.{first_pair, first_free as first_free_of};

use exp_tree::{ExpSequent, strong_vars};
use fol::Var;
use lk_rules::Sequent;
use std::alloc::{AllocError, Global};

// The first variable that is followed by itself.
fn first_repeated(vars: &[Var]) -> Option<&Var>
    ensures { option_copied result ≡ first_pair vars.now }
{
    for place in 1..vars.len() {
        if vars[place - 1] == vars[place] {
            return Some(&vars[place - 1]);
        }
    }
    None
}

// The first variable that is free in the sequent.
fn first_free<'v>(sequent: &Sequent, vars: &'v [Var]) -> Option<&'v Var>
    ensures { option_copied result ≡ first_free_of sequent.now vars.now }
{
    for var in vars {
        if sequent.has_free(var) {
            return Some(var);
        }
    }
    None
}

/// The least variable that belongs to two strong quantifiers of the unfolded trees.
pub fn eigen_twice(alloc: Global, exps: &ExpSequent) -> Result<Option<Var>, AllocError>
    ensures least { IfOk result (IsLeast (is_repeated (strongs_of (expansion_of exps.now)))) }
    ensures distinct { IfOk result (λ o. IsNone o ↔ (are_distinct (strongs_of (expansion_of exps.now)) ≡ true)) }
{
    let mut vars = strong_vars(alloc, exps)?;
    vars.sort_unstable();
    match first_repeated(&vars) {
        Some(var) => Ok(Some(var.copy()?)),
        None => Ok(None),
    }
}

/// The least variable of a strong quantifier that is free in the sequent.
pub fn eigen_free(
    alloc: Global,
    exps: &ExpSequent,
    sequent: &Sequent,
) -> Result<Option<Var>, AllocError>
    ensures least { IfOk result (IsLeast (is_free_eigenvariable sequent.now (strongs_of (expansion_of exps.now)))) }
    ensures fresh { IfOk result (λ o. IsNone o ↔ (list_any (λ v. is_free_in_sequent v sequent.now) (strongs_of (expansion_of exps.now)) ≡ false)) }
{
    let mut vars = strong_vars(alloc, exps)?;
    vars.sort_unstable();
    match first_free(sequent, &vars) {
        Some(var) => Ok(Some(var.copy()?)),
        None => Ok(None),
    }
}
