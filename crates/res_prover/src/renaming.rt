//! Clauses renamed apart.
ghost use Rattle.std.specs.Prelude.{◌≡◌, true, Some, IfOk, map};
ghost use Rattle.std.specs.FinMap as fin;
ghost use Rattle.fol.specs.declared.symbols.Var.{Var as Variable};
ghost use Rattle.fol.specs.Syntax.{free};
ghost use Rattle.fol.specs.Formed.{IsFormedVar};
ghost use Rattle.free_variables.specs.Fresh.{is_among};
ghost use Rattle.substitution.specs.Image.{IsFormedMap};
ghost use Rattle.lk_rules.specs.Sequents.{image_sequent};
ghost use Rattle.res_prover.specs.Reached.{apart_by};

use crate::normal::variables;
use fol::{Term, Var};
use lk_rules::Sequent;
use std::alloc::{AllocError, Global};
use substitution::Subst;

/// The new name of a numbered variable. Words, which clauses with numbered variables don't have, and numbers whose double is too large are refused
/// as want of memory.
pub(crate) fn new_name(var: &Var, is_second: bool) -> Result<Var, AllocError>
    ensures name { IfOk result (λ v. Some (free v) ≡ apart_by is_second var.now) }
    ensures formed { IfOk result IsFormedVar }
{
    let Var::Num(number) = var else {
        return Err(AllocError);
    };
    let Some(double) = number.checked_mul(2) else {
        return Err(AllocError);
    };
    if !is_second {
        return Ok(Var::Num(double));
    }
    let Some(odd) = double.checked_add(1) else {
        return Err(AllocError);
    };
    Ok(Var::Num(odd))
}

// The map to the new names.
fn new_names(alloc: Global, vars: &[Var], is_second: bool) -> Result<Subst, AllocError>
    ensures names { IfOk result (λ m. (v : Variable) → is_among v vars.now ≡ true → fin.get m v ≡ apart_by is_second v) }
    ensures formed { IfOk result (λ m. IsFormedMap (fin.get m)) }
{
    let mut map = Subst::new(alloc);
    for place in 0..vars.len() {
        let var = &vars[place];
        let name = new_name(var, is_second)?;
        map.set(var.copy()?, Term::free(alloc, name)?)?;
    }
    Ok(map)
}

/// The variant for the first or the second place of a resolution, with even or odd numbers for its variables. They are numbered ones, as those of
/// kept clauses are: a clause with other variables is refused as want of memory.
pub(crate) fn renamed(
    alloc: Global,
    clause: &Sequent,
    is_second: bool,
) -> Result<Sequent, AllocError>
    ensures { IfOk result (λ s. s ≡ image_sequent (apart_by is_second) clause.now) }
{
    let vars = variables(alloc, clause)?;
    let map = new_names(alloc, vars.as_slice(), is_second)?;
    let image = clause.image(alloc, &map)?;
    Ok(image)
}

/// Those of all clauses, in their order.
pub(crate) fn renamed_all(
    alloc: Global,
    clauses: &[Sequent],
    is_second: bool,
) -> Result<Vec<Sequent>, AllocError>
    ensures { IfOk result (λ v. v.items ≡ map (image_sequent (apart_by is_second)) clauses.now) }
{
    let mut images = Vec::with_capacity(alloc, clauses.len())?;
    for place in 0..clauses.len() {
        images.push(renamed(alloc, &clauses[place], is_second)?)?;
    }
    Ok(images)
}
