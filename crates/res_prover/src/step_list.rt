//! Steps of a refutation, each with the clause that it derives.
ghost use Rattle.std.specs.Prelude.{◌<◌, length, IfOk, OnOk};
ghost use Rattle.std.specs.FinMap as fin;
ghost use Rattle.substitution.specs.Image.{IsFormedMap};
ghost use Rattle.res_prover.specs.Deriving.{AreDerived, IsRefutationOf};

use fol::{Formula, well_formed};
use lk_rules::Sequent;
use refutations::{ResStep, resolvent};
use std::alloc::{AllocError, Global};
use substitution::Subst;

/// Adds the step that an input clause is.
pub fn push_input(
    clauses: &[Sequent],
    steps: &mut Vec<ResStep>,
    derived: &mut Vec<Sequent>,
    number: usize,
) -> Result<(), AllocError>
    requires derived { AreDerived clauses.now steps.old.items derived.old.items }
    requires number { number < length clauses.now }
    ensures { OnOk result (AreDerived clauses.now steps.new.items derived.new.items) }
{
    let clause = clauses[number].copy()?;
    steps.push(ResStep::Input(number as u64))?;
    derived.push(clause)?;
    Ok(())
}

/// Adds the step to the image of what a step derives.
pub fn push_image(
    alloc: Global,
    clauses: &[Sequent],
    steps: &mut Vec<ResStep>,
    derived: &mut Vec<Sequent>,
    number: usize,
    map: Subst,
) -> Result<(), AllocError>
    requires derived { AreDerived clauses.now steps.old.items derived.old.items }
    requires number { number < length derived.old.items }
    requires map { IsFormedMap (fin.get map) }
    ensures { OnOk result (AreDerived clauses.now steps.new.items derived.new.items) }
{
    let _clauses = clauses;
    let image = derived[number].image(alloc, &map)?;
    steps.push(ResStep::Subst(number as u64, map))?;
    derived.push(image)?;
    Ok(())
}

/// Adds the step to the resolvent of what two steps derive. Where the atom isn't on the right of the first and on the left of the second, that
/// is refused as want of memory.
pub fn push_resolvent(
    alloc: Global,
    clauses: &[Sequent],
    steps: &mut Vec<ResStep>,
    derived: &mut Vec<Sequent>,
    positive: usize,
    negative: usize,
    atom: Formula,
) -> Result<(), AllocError>
    requires derived { AreDerived clauses.now steps.old.items derived.old.items }
    requires positive { positive < length derived.old.items }
    requires negative { negative < length derived.old.items }
    ensures { OnOk result (AreDerived clauses.now steps.new.items derived.new.items) }
{
    let _clauses = clauses;
    let first = &derived[positive];
    let second = &derived[negative];
    if !first.right.has(&atom) || !second.left.has(&atom) || !well_formed(&atom) {
        return Err(AllocError);
    }
    let clause = resolvent(alloc, first, second, &atom)?;
    steps.push(ResStep::Resolve {
        positive: positive as u64,
        negative: negative as u64,
        atom,
    })?;
    derived.push(clause)?;
    Ok(())
}

/// The steps, where the clause that the last one derives is empty. Where it isn't, that is refused as want of memory.
pub fn ended(
    alloc: Global,
    clauses: &[Sequent],
    steps: Vec<ResStep>,
    derived: &[Sequent],
) -> Result<Vec<ResStep>, AllocError>
    requires { AreDerived clauses.now steps.items derived.now }
    ensures { IfOk result (λ v. IsRefutationOf clauses.now v.items) }
{
    let _clauses = clauses;
    let Some(last) = derived.last() else {
        return Err(AllocError);
    };
    let is_empty = *last == Sequent::empty(alloc);
    if !is_empty {
        return Err(AllocError);
    }
    Ok(steps)
}
