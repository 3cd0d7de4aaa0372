//! The tuples of terms by which an expansion tree reaches its formula without quantifiers.
ghost use Rattle.std.specs.Prelude.{◌≡◌, ◌++◌, map, IfOk};
ghost use Rattle.fol.specs.Syntax.{cons};
ghost use Rattle.herbrand_laws.specs.Herbrand.{tuples as tuples_of, tuples_in as tuples_of_instances};
ghost use Rattle.exp_tree.specs.Shown.{insts_of};

use exp_tree::{Exp, ExpRoot, Inst};
use fol::{Term, Terms};
use std::alloc::{AllocError, Global};

/// The tuples of the terms of `count` instances inside one another in the tree, in order: those whose path reaches a tree that is used.
#[cycle(tuples)]
pub(crate) fn tuples(alloc: Global, count: u32, exp: &Exp) -> Result<Vec<Terms>, AllocError>
    ensures { IfOk result (λ uss. uss.items ≡ tuples_of count exp.now) }
{
    if count == 0 {
        return empty_tuple(alloc, exp);
    }
    match exp.root() {
        ExpRoot::Weak(_, instances) => tuples_in(alloc, count - 1, instances),
        ExpRoot::Wk(_)
        | ExpRoot::Leaf(_)
        | ExpRoot::Not(_)
        | ExpRoot::And(..)
        | ExpRoot::Or(..)
        | ExpRoot::Imp(..)
        | ExpRoot::Strong(..) => Ok(Vec::new(alloc)),
    }
}

// The tuple of no term, where the tree is used.
fn empty_tuple(alloc: Global, exp: &Exp) -> Result<Vec<Terms>, AllocError>
    ensures { IfOk result (λ uss. uss.items ≡ tuples_of 0 exp.now) }
{
    match exp.root() {
        ExpRoot::Wk(_) => Ok(Vec::new(alloc)),
        ExpRoot::Leaf(_)
        | ExpRoot::Not(_)
        | ExpRoot::And(..)
        | ExpRoot::Or(..)
        | ExpRoot::Imp(..)
        | ExpRoot::Weak(..)
        | ExpRoot::Strong(..) => {
            let tuple = Terms::empty(alloc)?;
            Ok(vec![in alloc; tuple]?)
        }
    }
}

// The tuples of instances, each with the instance's term in front.
#[cycle(tuples)]
fn tuples_in(alloc: Global, count: u32, instances: &[Inst]) -> Result<Vec<Terms>, AllocError>
    ensures { IfOk result (λ uss. uss.items ≡ tuples_of_instances count (insts_of instances.now)) }
{
    let mut list = Vec::new(alloc);
    for instance in instances {
        let below = tuples(alloc, count, &instance.child)?;
        push_with_first(alloc, &mut list, &instance.term, &below)?;
    }
    Ok(list)
}

// Appends tuples with a term in front of each. After an error some of them may stand there.
fn push_with_first(
    alloc: Global,
    list: &mut Vec<Terms>,
    term: &Term,
    tuples: &[Terms],
) -> Result<(), AllocError>
    ensures { IfOk result (λ _. list.new.items ≡ list.old.items ++ map (cons term.now) tuples.now) }
{
    for tuple in tuples {
        list.push(Terms::cons(alloc, term.copy()?, tuple.copy()?)?)?;
    }
    Ok(())
}
