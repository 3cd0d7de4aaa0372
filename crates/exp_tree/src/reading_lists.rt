//! Reading of flat lists.
ghost use Rattle.std.specs.Prelude.{◌≡◌, true, [], ◌∷◌, ◌++◌, IfOk, IfErr};
ghost use Rattle.std.specs.List.{list_all};
ghost use Rattle.exp_tree.specs.Sizes.{capped};
ghost use Rattle.exp_tree.specs.Roots.{nodes_each, expansion_over, IsWithoutRootFault};
ghost use Rattle.exp_tree.specs.Reads.{expansion_of, StandsRightly, IsRootOrMemory, Reads};
ghost use Rattle.exp_tree.specs.FlatLists.{is_formed_node, trees_of, IsWithoutNodeFault};
ghost use Rattle.exp_tree.specs.Reading.{of_node, IsNodeOrMemory};

use crate::expansion::Exp;
use crate::flat::{ExpNode, FlatExp, NodesFault};
use crate::reading::{NodeFault, read_node};
use crate::roots::read_side;
use crate::sequents::ExpSequent;
use lk_rules::Side;
use std::alloc::{AllocError, Global};

// The fault of the node at a place.
fn fault_at(place: u64, fault: NodeFault) -> NodesFault
    ensures { result ≡ of_node place fault }
{
    match fault {
        NodeFault::Cause(cause) => NodesFault::Node { node: place, cause },
        NodeFault::Memory => NodesFault::Memory,
    }
}

fn push(trees: &mut Vec<Exp>, tree: Exp) -> Result<(), AllocError>
    ensures { IfOk result (λ _. trees.new.items ≡ trees.old.items ++ tree ∷ []) }
{
    trees.push(tree)?;
    Ok(())
}

// The trees of all nodes.
fn read_trees(alloc: Global, nodes: &[ExpNode]) -> Result<Vec<Exp>, NodesFault>
    requires { list_all is_formed_node nodes.now ≡ true }
    ensures ok { IfOk result (λ trees. trees.items ≡ trees_of nodes.now) }
    ensures right { IfOk result (λ _. IsWithoutNodeFault nodes.now) }
    ensures err { IfErr result (IsNodeOrMemory nodes.now) }
{
    let mut trees = Vec::new(alloc);
    for (place, node) in nodes.iter().enumerate() {
        match read_node(alloc, &trees, node) {
            Ok(tree) => push(&mut trees, tree)?,
            Err(fault) => return Err(fault_at(place as u64, fault)),
        }
    }
    Ok(trees)
}

// How many nodes the trees have together, where a part that stands at several places counts at each.
fn count_nodes(trees: &[Exp]) -> u64
    ensures { result ≡ capped (nodes_each trees.now) }
{
    let mut count: u64 = 0;
    for tree in trees {
        count = count.saturating_add(tree.nodes());
    }
    count
}

// The trees of the roots.
fn read_roots(alloc: Global, trees: &[Exp], flat: &FlatExp) -> Result<ExpSequent, NodesFault>
    requires { trees.now ≡ trees_of flat.now.nodes }
    ensures ok { IfOk result (λ e. expansion_of e ≡ expansion_over flat.now) }
    ensures stand { IfOk result StandsRightly }
    ensures right { IfOk result (λ _. IsWithoutRootFault flat.now) }
    ensures err { IfErr result (IsRootOrMemory flat.now) }
{
    let left = match read_side(alloc, trees, Side::Left, flat.left.as_slice(), 0) {
        Ok(left) => left,
        Err(fault) => return Err(fault),
    };
    match read_side(
        alloc,
        trees,
        Side::Right,
        flat.right.as_slice(),
        flat.left.as_slice().len() as u64,
    ) {
        Ok(right) => Ok(ExpSequent { left, right }),
        Err(fault) => Err(fault),
    }
}

/// Reads expansion trees from a flat list, sharing what the list shares. `Node` and `Root` name the first fault, nodes before roots.
/// `Budget` is answered where there is none and the unfolded trees of the roots have more than `budget` nodes; nothing is unfolded to
/// count them. With 2^64 - 1 nodes or more, which are counted no further, and that budget, want of memory is answered.
pub fn read_nodes(alloc: Global, flat: &FlatExp, budget: u64) -> Result<ExpSequent, NodesFault>
    ensures exact { Reads result flat.now budget }
    ensures stand { IfOk result StandsRightly }
{
    let trees = match read_trees(alloc, flat.nodes.as_slice()) {
        Ok(trees) => trees,
        Err(fault) => return Err(fault),
    };
    let read = match read_roots(alloc, &trees, flat) {
        Ok(read) => read,
        Err(fault) => return Err(fault),
    };
    let left = count_nodes(read.left.as_slice());
    let right = count_nodes(read.right.as_slice());
    let nodes = left.saturating_add(right);
    if nodes > budget {
        return Err(NodesFault::Budget);
    }
    if nodes == u64::MAX {
        return Err(NodesFault::Memory);
    }
    Ok(read)
}
