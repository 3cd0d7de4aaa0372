//! The sequents and the variables of expansion trees.
ghost use Rattle.std.specs.Prelude.{◌≡◌, ◌++◌, map, IfOk};
ghost use Rattle.std.specs.List.{All};
ghost use Rattle.finite.specs.Finite as set;
ghost use Rattle.fol.specs.Formed.{IsFormed};
ghost use Rattle.search_laws.specs.Truth.{IsPropositional};
ghost use Rattle.expansion_laws.specs.Expansions.{shallow as formula_of, deep as deep_of};
ghost use Rattle.expansion_laws.specs.Dependency.{strongs, strongs_in, strongs_each, strongs_of};
ghost use Rattle.expansion_laws.specs.Proofs.{shallow_sequent as sequent_of};
ghost use Rattle.expansion_laws.specs.Sequents.{deep_sequent as deep_sequent_of};
ghost use Rattle.exp_tree.specs.Shown.{insts_of};
ghost use Rattle.exp_tree.specs.Reads.{expansion_of};

use crate::deep_formulas::deep;
use crate::expansion::{Exp, ExpRoot, Inst};
use crate::sequents::ExpSequent;
use expansion_laws::laws;
use fol::Var;
use lk_rules::{Formulas, Sequent, Side};
use std::alloc::{AllocError, Global};

// The formulas of trees.
fn formulas(alloc: Global, trees: &[Exp]) -> Result<Formulas, AllocError>
    ensures { IfOk result (λ fs. fs ≡ set.of_list (map formula_of trees.now)) }
{
    let mut formulas = Vec::with_capacity(alloc, trees.len())?;
    for tree in trees {
        formulas.push(tree.shallow()?)?;
    }
    Formulas::from_vec(alloc, formulas)
}

/// The sequent of the trees' formulas.
pub fn shallow_sequent(alloc: Global, exps: &ExpSequent) -> Result<Sequent, AllocError>
    ensures { IfOk result (λ s. s ≡ sequent_of (expansion_of exps.now)) }
{
    let left = formulas(alloc, exps.left.as_slice())?;
    let right = formulas(alloc, exps.right.as_slice())?;
    Ok(Sequent { left, right })
}

// What trees stand for on a side.
fn deep_side(alloc: Global, trees: &[Exp], side: Side) -> Result<Formulas, AllocError>
    ensures { IfOk result (λ fs. fs ≡ set.of_list (map (deep_of side) trees.now)) }
{
    let mut formulas = Vec::with_capacity(alloc, trees.len())?;
    for tree in trees {
        formulas.push(deep(alloc, tree, side)?)?;
    }
    Formulas::from_vec(alloc, formulas)
}

/// The sequent that the trees stand for, each on its side. It has no quantifier.
pub fn deep_sequent(alloc: Global, exps: &ExpSequent) -> Result<Sequent, AllocError>
    ensures value { IfOk result (λ s. s ≡ deep_sequent_of (expansion_of exps.now)) }
    ensures unquantified { IfOk result IsPropositional }
{
    laws::deep_formulas();
    let left = deep_side(alloc, exps.left.as_slice(), Side::Left)?;
    let right = deep_side(alloc, exps.right.as_slice(), Side::Right)?;
    Ok(Sequent { left, right })
}

/// Appends the variables of the strong quantifiers of a tree, one for each that the unfolded tree has. After an error some of them may
/// stand there.
#[cycle(strongs)]
pub fn push_strongs(list: &mut Vec<Var>, exp: &Exp) -> Result<(), AllocError>
    ensures { IfOk result (λ _. list.new.items ≡ list.old.items ++ strongs exp.now) }
{
    match exp.root() {
        ExpRoot::Wk(_) | ExpRoot::Leaf(_) => Ok(()),
        ExpRoot::Not(body) => push_strongs(list, body),
        ExpRoot::And(first, second) | ExpRoot::Or(first, second) | ExpRoot::Imp(first, second) => {
            push_strongs(list, first)?;
            push_strongs(list, second)
        }
        ExpRoot::Weak(_, instances) => push_strongs_in(list, instances),
        ExpRoot::Strong(_, var, child) => {
            list.push(var.copy()?)?;
            push_strongs(list, child)
        }
    }
}

/// Appends those of the trees of instances.
#[cycle(strongs)]
pub fn push_strongs_in(list: &mut Vec<Var>, instances: &[Inst]) -> Result<(), AllocError>
    ensures { IfOk result (λ _. list.new.items ≡ list.old.items ++ strongs_in (insts_of instances.now)) }
{
    for instance in instances {
        push_strongs(list, &instance.child)?;
    }
    Ok(())
}

fn push_strongs_each(list: &mut Vec<Var>, trees: &[Exp]) -> Result<(), AllocError>
    ensures { IfOk result (λ _. list.new.items ≡ list.old.items ++ strongs_each trees.now) }
{
    for tree in trees {
        push_strongs(list, tree)?;
    }
    Ok(())
}

/// The variables of the strong quantifiers, one for each that the unfolded trees have.
pub fn strong_vars(alloc: Global, exps: &ExpSequent) -> Result<Vec<Var>, AllocError>
    ensures { IfOk result (λ vars. vars.items ≡ strongs_of (expansion_of exps.now)) }
{
    let mut list = Vec::new(alloc);
    push_strongs_each(&mut list, exps.left.as_slice())?;
    push_strongs_each(&mut list, exps.right.as_slice())?;
    Ok(list)
}
