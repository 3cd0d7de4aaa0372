//! Expansion trees as flat lists.
ghost use Rattle.std.specs.Prelude.{◌≡◌};
ghost use Rattle.exp_tree.specs.declared.flat.NodesFault.TheVariants.{Memory as NoMemory};

use crate::flat_insts::FlatInsts;
use crate::nodes::ExpNodes;
use fol::{Formula, Var};
use lk_rules::Numbers;
use std::alloc::AllocError;

/// A node of a flat list. It names its children by the places of earlier nodes, counted from 0.
#[derive(Drop)]
pub enum ExpNode {
    /// A formula that is never used.
    Wk(Formula),
    /// An atom, truth or falsity that is used.
    Leaf(Formula),
    Not(u64),
    And(u64, u64),
    Or(u64, u64),
    Imp(u64, u64),
    /// A weak quantifier's formula, with the terms of the instances that are used, in any order, and their nodes.
    Weak(Formula, FlatInsts),
    /// A strong quantifier's formula, its variable, and the node of the instance by that.
    Strong(Formula, Var, u64),
}

/// Expansion trees for the two sides of a sequent: a list of nodes, and which of them are the roots on the left and on the right.
pub struct FlatExp {
    pub nodes: ExpNodes,
    pub left: Numbers,
    pub right: Numbers,
}

impl Drop for FlatExp {
    fn drop(self) {
        let FlatExp { nodes, left, right } = self;
        drop(nodes);
        drop(left);
        drop(right);
    }
}

/// What is wrong with a node: the first fault in this order.
#[derive(Clone, Copy, PartialEq, Eq)]
pub enum NodeCause {
    /// A child is no earlier node.
    Reference,
    /// A leaf isn't an atom, truth or falsity, or a quantifier's formula doesn't begin with a quantifier.
    Shape,
    /// A child's formula isn't the instance, or a term is given twice.
    Instance,
    /// The tree can stand on neither side.
    Polarity,
}

/// What is wrong with a root: the first fault in this order.
#[derive(Clone, Copy, PartialEq, Eq)]
pub enum RootCause {
    /// It is no node.
    Reference,
    /// Its tree can't stand on the side.
    Polarity,
    /// Its formula is that of an earlier root of the side.
    Twice,
}

/// Why no expansion trees are read from a flat list.
#[derive(Clone, Copy, PartialEq, Eq)]
pub enum NodesFault {
    /// This is the first faulty node, counted from 0, with its first fault.
    Node { node: u64, cause: NodeCause },
    /// This is the first faulty root, with its first fault. Left roots are counted before right ones, from 0.
    Root { root: u64, cause: RootCause },
    /// The unfolded trees of the roots have more nodes than the budget allows.
    Budget,
    /// Memory ran out.
    Memory,
}

impl From<AllocError> for NodesFault {
    ghost from_gives = { λ _ fault. fault ≡ NoMemory };

    fn from(_error: AllocError) -> NodesFault {
        NodesFault::Memory
    }
}
