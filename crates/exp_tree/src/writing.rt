//! Writing of expansion trees as flat lists.
ghost use Rattle.std.specs.Prelude.{◌≡◌, ◌||◌, ◌++◌, true, Some, slice_get, length, map, nat_lt, IfOk};
ghost use Rattle.std.specs.List.{All, list_all};
ghost use Rattle.lk_rules.specs.declared.sequent.Side.TheVariants.{Left, Right};
ghost use Rattle.expansion_laws.specs.Expansions.{weak, strong};
ghost use Rattle.expansion_laws.specs.Proofs.{stands as can_stand, stand_in};
ghost use Rattle.exp_tree.specs.Shown.{insts_of};
ghost use Rattle.exp_tree.specs.FlatLists.{inst_at, tree_at};
ghost use Rattle.exp_tree.specs.Reads.{expansion_of, StandsRightly, IsWithoutFault};
ghost use Rattle.exp_tree.specs.Roots.{expansion_over};
ghost use Rattle.exp_tree.specs.Subtrees.{subtrees, subtrees_in, subtrees_each, below, with_each};
ghost use Rattle.exp_tree.specs.Writing.{flat_of};
ghost use Rattle.exp_tree.specs.Tables.{IsNodeOf};

use crate::expansion::{Exp, ExpRoot, Inst};
use crate::flat::{ExpNode, FlatExp};
use crate::flat_insts::FlatInsts;
use crate::sequents::ExpSequent;
use crate::table::Table;
use fol::{Formula, Var};
use lk_rules::Numbers;
use std::alloc::{AllocError, Global};

// Enters the distinct trees that a tree is made of, and answers its place.
#[cycle(enter)]
fn enter(table: &mut Table, alloc: Global, exp: &Exp) -> Result<u64, AllocError>
    requires { (can_stand Left exp.now || can_stand Right exp.now) ≡ true }
    ensures trees { IfOk result (λ _. table.new ≡ with_each table.old (subtrees exp.now)) }
    ensures place { IfOk result (λ place. slice_get table.new place ≡ Some exp.now) }
{
    exp.known();
    let node = enter_below(table, alloc, exp)?;
    table.put(node)
}

// Enters the trees below a tree, and answers the tree's node.
#[cycle(enter)]
fn enter_below(table: &mut Table, alloc: Global, exp: &Exp) -> Result<ExpNode, AllocError>
    requires { (can_stand Left exp.now || can_stand Right exp.now) ≡ true }
    ensures trees { IfOk result (λ _. table.new ≡ with_each table.old (below exp.now)) }
    ensures node { IfOk result (λ node. IsNodeOf table.new exp.now node) }
{
    exp.known();
    match exp.root() {
        ExpRoot::Wk(formula) => Ok(ExpNode::Wk(formula.copy()?)),
        ExpRoot::Leaf(formula) => Ok(ExpNode::Leaf(formula.copy()?)),
        ExpRoot::Not(body) => Ok(ExpNode::Not(enter(table, alloc, body)?)),
        ExpRoot::And(first, second) => {
            let (first, second) = enter_both(table, alloc, first, second)?;
            Ok(ExpNode::And(first, second))
        }
        ExpRoot::Or(first, second) => {
            let (first, second) = enter_both(table, alloc, first, second)?;
            Ok(ExpNode::Or(first, second))
        }
        ExpRoot::Imp(first, second) => {
            let (first, second) = enter_both(table, alloc, first, second)?;
            Ok(ExpNode::Imp(first, second))
        }
        ExpRoot::Weak(formula, instances) => enter_weak(table, alloc, exp, formula, instances),
        ExpRoot::Strong(formula, var, child) => {
            enter_strong(table, alloc, exp, formula, var, child)
        }
    }
}

// Enters the trees of the instances at a weak quantifier, and answers the quantifier's node.
#[cycle(enter)]
fn enter_weak(
    table: &mut Table,
    alloc: Global,
    exp: &Exp,
    formula: &Formula,
    instances: &[Inst],
) -> Result<ExpNode, AllocError>
    requires root { exp.now ≡ weak formula.now (insts_of instances.now) }
    requires stand { (stand_in Left (insts_of instances.now) || stand_in Right (insts_of instances.now)) ≡ true }
    ensures trees { IfOk result (λ _. table.new ≡ with_each table.old (subtrees_in (insts_of instances.now))) }
    ensures node { IfOk result (λ node. IsNodeOf table.new exp.now node) }
{
    exp.known();
    let instances = enter_insts(table, alloc, instances)?;
    Ok(ExpNode::Weak(formula.copy()?, instances))
}

// Enters the tree of the instance at a strong quantifier, and answers the quantifier's node.
#[cycle(enter)]
fn enter_strong(
    table: &mut Table,
    alloc: Global,
    exp: &Exp,
    formula: &Formula,
    var: &Var,
    child: &Exp,
) -> Result<ExpNode, AllocError>
    requires root { exp.now ≡ strong formula.now var.now child.now }
    requires stands { (can_stand Left child.now || can_stand Right child.now) ≡ true }
    ensures trees { IfOk result (λ _. table.new ≡ with_each table.old (subtrees child.now)) }
    ensures node { IfOk result (λ node. IsNodeOf table.new exp.now node) }
{
    exp.known();
    let child = enter(table, alloc, child)?;
    Ok(ExpNode::Strong(formula.copy()?, var.copy()?, child))
}

// Enters the trees that two trees are made of, and answers the places of these.
#[cycle(enter)]
fn enter_both(
    table: &mut Table,
    alloc: Global,
    first: &Exp,
    second: &Exp,
) -> Result<(u64, u64), AllocError>
    requires first { (can_stand Left first.now || can_stand Right first.now) ≡ true }
    requires second { (can_stand Left second.now || can_stand Right second.now) ≡ true }
    ensures trees { IfOk result (λ _. table.new ≡ with_each table.old (subtrees first.now ++ subtrees second.now)) }
    ensures first { IfOk result (λ p. slice_get table.new p.0 ≡ Some first.now) }
    ensures second { IfOk result (λ p. slice_get table.new p.1 ≡ Some second.now) }
{
    let first = enter(table, alloc, first)?;
    let second = enter(table, alloc, second)?;
    Ok((first, second))
}

// Enters the trees of instances, and answers their terms with the places of the trees.
#[cycle(enter)]
fn enter_insts(
    table: &mut Table,
    alloc: Global,
    instances: &[Inst],
) -> Result<FlatInsts, AllocError>
    requires { (stand_in Left (insts_of instances.now) || stand_in Right (insts_of instances.now)) ≡ true }
    ensures trees { IfOk result (λ _. table.new ≡ with_each table.old (subtrees_in (insts_of instances.now))) }
    ensures earlier { IfOk result (λ places. list_all (λ i. nat_lt i.1 (length table.new)) places ≡ true) }
    ensures insts { IfOk result (λ places. map (inst_at table.new) places ≡ instances.now) }
{
    let mut places = Vec::with_capacity(alloc, instances.len())?;
    for instance in instances {
        let place = enter(table, alloc, &instance.child)?;
        places.push((instance.term.copy()?, place))?;
    }
    Ok(FlatInsts::from_vec(places))
}

// Enters the distinct trees that some trees are made of, and answers the places of these.
fn enter_each(table: &mut Table, alloc: Global, trees: &[Exp]) -> Result<Numbers, AllocError>
    requires { All (λ e. (can_stand Left e || can_stand Right e) ≡ true) trees.now }
    ensures trees { IfOk result (λ _. table.new ≡ with_each table.old (subtrees_each trees.now)) }
    ensures earlier { IfOk result (λ places. list_all (λ n. nat_lt n (length table.new)) places ≡ true) }
    ensures roots { IfOk result (λ places. map (tree_at table.new) places ≡ trees.now) }
{
    let mut places = Vec::with_capacity(alloc, trees.len())?;
    for tree in trees {
        let place = enter(table, alloc, tree)?;
        places.push(place)?;
    }
    Ok(Numbers::from_vec(places))
}

/// Writes expansion trees as a flat list: their distinct trees in post-order, left roots before right ones, each with its instances by
/// rising term. The list is without fault and is read as the same trees.
pub fn write_nodes(alloc: Global, exps: &ExpSequent) -> Result<FlatExp, AllocError>
    requires { StandsRightly exps.now }
    ensures written { IfOk result (λ flat. flat ≡ flat_of (expansion_of exps.now)) }
    ensures right { IfOk result IsWithoutFault }
    ensures read { IfOk result (λ flat. expansion_over flat ≡ expansion_of exps.now) }
{
    let mut table = Table::new(alloc);
    let left = enter_each(&mut table, alloc, exps.left.as_slice())?;
    let right = enter_each(&mut table, alloc, exps.right.as_slice())?;
    table.known();
    let nodes = table.into_nodes(alloc)?;
    Ok(FlatExp { nodes, left, right })
}
