//! Refutations. What a search has noted is a plan: each of its steps is made once more from the clauses, and looked at.
ghost use Rattle.std.specs.Prelude.{IfOk, OnOk};
ghost use Rattle.std.specs.FinMap as fin;
ghost use Rattle.substitution.specs.Image.{IsFormedMap};
ghost use Rattle.res_prover.specs.Deriving.{AreDerived, IsRefutationOf};

use crate::step_list::{ended, push_image, push_input, push_resolvent};
use fol::well_formed_term;
use lk_rules::Sequent;
use refutations::ResStep;
use std::alloc::{AllocError, Global};
use substitution::{Subst, laws};

// The same map, where its terms are well formed.
fn formed_map(alloc: Global, map: &Subst) -> Result<Subst, AllocError>
    ensures { IfOk result (λ m. IsFormedMap (fin.get m)) }
{
    laws::well_formed_maps();
    let mut formed = Subst::new(alloc);
    for (var, term) in map.as_slice() {
        if !well_formed_term(term) {
            return Err(AllocError);
        }
        formed.set(var.copy()?, term.copy()?)?;
    }
    Ok(formed)
}

// Adds a step of a plan. One that names no clause or no earlier step is refused as want of memory.
fn push_step(
    alloc: Global,
    clauses: &[Sequent],
    steps: &mut Vec<ResStep>,
    derived: &mut Vec<Sequent>,
    step: &ResStep,
) -> Result<(), AllocError>
    requires { AreDerived clauses.now steps.old.items derived.old.items }
    ensures { OnOk result (AreDerived clauses.now steps.new.items derived.new.items) }
{
    match step {
        ResStep::Input(number) => {
            let number = *number as usize;
            if number >= clauses.len() {
                return Err(AllocError);
            }
            push_input(clauses, steps, derived, number)
        }
        ResStep::Subst(number, map) => {
            let number = *number as usize;
            if number >= derived.len() {
                return Err(AllocError);
            }
            let map = formed_map(alloc, map)?;
            push_image(alloc, clauses, steps, derived, number, map)
        }
        ResStep::Resolve {
            positive,
            negative,
            atom,
        } => {
            let first = *positive as usize;
            let second = *negative as usize;
            if first >= derived.len() || second >= derived.len() {
                return Err(AllocError);
            }
            push_resolvent(alloc, clauses, steps, derived, first, second, atom.copy()?)
        }
    }
}

/// The steps of a plan, where they have no fault and end with the empty clause. Where they don't, that is refused as want of memory.
pub(crate) fn refutation(
    alloc: Global,
    clauses: &[Sequent],
    plan: &[ResStep],
) -> Result<Vec<ResStep>, AllocError>
    ensures { IfOk result (λ v. IsRefutationOf clauses.now v.items) }
{
    let mut steps = Vec::new(alloc);
    let mut derived = Vec::new(alloc);
    for step in plan {
        push_step(alloc, clauses, &mut steps, &mut derived, step)?;
    }
    ended(alloc, clauses, steps, derived.as_slice())
}
