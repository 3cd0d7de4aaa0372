//! Which variable of a strong quantifier has to be there before which.
ghost use Rattle.std.specs.Prelude.{◌≡◌, ◌&&◌, ◌||◌, IfOk, false, []};
ghost use Rattle.std.specs.List.{list_any};
ghost use Rattle.std.specs.Ordering.{eq_by_cmp};
ghost use Rattle.fol.specs.Order.{var_cmp};
ghost use Rattle.finite.specs.Finite as set;
ghost use Rattle.free_variables.specs.Occurrence.{is_free_in_term};
ghost use Rattle.expansion_laws.specs.Dependency.{is_above, is_above_in};
ghost use Rattle.exp_tree.specs.Shown.{insts_of};
ghost use Rattle.exp_check.specs.Edges.{IsExtended};
ghost use Rattle.fol.specs.declared.symbols.Var.{Var as Variable};

use exp_tree::{Exp, ExpRoot, ExpSequent, Inst};
use fol::{Term, Var};
use free_variables::{Vars, term_vars};
use std::alloc::{AllocError, Global};

/// A variable that is free in the term of an instance above a strong quantifier, and the variable of that.
#[derive(Drop)]
pub struct Edge {
    pub before: Var,
    pub after: Var,
}

fn push_edge(edges: &mut Vec<Edge>, before: &Var, after: &Var) -> Result<(), AllocError>
    ensures { IfOk result (λ _. IsExtended edges.old.items edges.new.items (λ y z. eq_by_cmp var_cmp y before.now && eq_by_cmp var_cmp after.now z)) }
{
    edges.push(Edge {
        before: before.copy()?,
        after: after.copy()?,
    })?;
    Ok(())
}

// The edges from each variable of a list.
fn push_edges_from_each(edges: &mut Vec<Edge>, above: &[Var], after: &Var) -> Result<(), AllocError>
    ensures { IfOk result (λ _. IsExtended edges.old.items edges.new.items (λ y z. list_any (eq_by_cmp var_cmp y) above.now && eq_by_cmp var_cmp after.now z)) }
{
    for before in above {
        push_edge(edges, before, after)?;
    }
    Ok(())
}

// The edges from each variable of a set.
fn push_edges_from(edges: &mut Vec<Edge>, above: &Vars, after: &Var) -> Result<(), AllocError>
    ensures { IfOk result (λ _. IsExtended edges.old.items edges.new.items (λ y z. set.has above.now y && eq_by_cmp var_cmp after.now z)) }
{
    push_edges_from_each(edges, above.as_slice(), after)?;
    Ok(())
}

// The variables of the terms of instances that a tree stands below.
fn with_term(alloc: Global, above: &Vars, term: &Term) -> Result<Vars, AllocError>
    ensures { IfOk result (λ more. (y : Variable) → set.has more y ≡ (set.has above.now y || is_free_in_term y term.now)) }
{
    let more = above.union(alloc, &term_vars(alloc, term)?)?;
    Ok(more)
}

// Appends the edges to the strong quantifiers of a tree below terms with these variables.
#[cycle(edges)]
fn push_edges(
    alloc: Global,
    edges: &mut Vec<Edge>,
    above: &Vars,
    exp: &Exp,
) -> Result<(), AllocError>
    ensures { IfOk result (λ _. IsExtended edges.old.items edges.new.items (λ y z. is_above y z (set.has above.now y) exp.now)) }
{
    match exp.root() {
        ExpRoot::Wk(_) | ExpRoot::Leaf(_) => Ok(()),
        ExpRoot::Not(body) => push_edges(alloc, edges, above, body),
        ExpRoot::And(first, second) | ExpRoot::Or(first, second) | ExpRoot::Imp(first, second) => {
            push_edges(alloc, edges, above, first)?;
            push_edges(alloc, edges, above, second)
        }
        ExpRoot::Weak(_, instances) => push_edges_in(alloc, edges, above, instances),
        ExpRoot::Strong(_, var, child) => {
            push_edges_from(edges, above, var)?;
            push_edges(alloc, edges, above, child)
        }
    }
}

// Those of the trees of instances.
#[cycle(edges)]
fn push_edges_in(
    alloc: Global,
    edges: &mut Vec<Edge>,
    above: &Vars,
    instances: &[Inst],
) -> Result<(), AllocError>
    ensures { IfOk result (λ _. IsExtended edges.old.items edges.new.items (λ y z. is_above_in y z (set.has above.now y) (insts_of instances.now))) }
{
    for instance in instances {
        let inner = with_term(alloc, above, &instance.term)?;
        push_edges(alloc, edges, &inner, &instance.child)?;
    }
    Ok(())
}

fn push_edges_each(alloc: Global, edges: &mut Vec<Edge>, trees: &[Exp]) -> Result<(), AllocError>
    ensures { IfOk result (λ _. IsExtended edges.old.items edges.new.items (λ y z. list_any (is_above y z false) trees.now)) }
{
    let above = Vars::new(alloc);
    for tree in trees {
        push_edges(alloc, edges, &above, tree)?;
    }
    Ok(())
}

/// The edges to the strong quantifiers of the unfolded trees: from each variable that is free in the term of an instance above one to the
/// variable of that. Not each edge begins at the variable of a strong quantifier.
pub fn edges(alloc: Global, exps: &ExpSequent) -> Result<Vec<Edge>, AllocError>
    ensures { IfOk result (λ es. IsExtended [] es.items (λ y z. list_any (is_above y z false) exps.now.left || list_any (is_above y z false) exps.now.right)) }
{
    let mut list = Vec::new(alloc);
    push_edges_each(alloc, &mut list, exps.left.as_slice())?;
    push_edges_each(alloc, &mut list, exps.right.as_slice())?;
    Ok(list)
}
