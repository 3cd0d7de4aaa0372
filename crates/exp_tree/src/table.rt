//! Distinct trees by the nodes that stand for them.
ghost use Rattle.std.specs.Prelude.{◌≡◌, true, [], None, Some, slice_get, IfOk};
ghost use Rattle.indexmap.specs.IndexSet.{insert_key};
ghost use Rattle.exp_tree.specs.FlatLists.{is_formed_node, node_fault, tree_over, trees_of, IsWithoutNodeFault};
ghost use Rattle.exp_tree.specs.Subtrees.{same_tree};
ghost use Rattle.exp_tree.specs.Writing.{nodes_of};
ghost use Rattle.exp_tree.specs.Tables.{HasRisingTerms, AreDistinct};

use crate::flat::ExpNode;
use crate::nodes::ExpNodes;
use indexmap::IndexSet;
use number_hash::ByNumber;
use std::alloc::{AllocError, Global};
use std::marker::Model;

/// A list of distinct trees, each after those below it. A tree is found by its root and the places of its children.
#[derive(Drop)]
pub(crate) struct Table {
    nodes: IndexSet<ExpNode, ByNumber>,
}

impl Model for Table {
    ghost use Rattle.std.specs.Prelude.{List};
    ghost use Rattle.std.specs.Coded.{coded_list};
    ghost use Rattle.expansion_laws.specs.Expansions.{Exp as Tree};
    ghost use Rattle.exp_tree.specs.Codes.{coded_exp};
    ghost use Rattle.exp_tree.specs.FlatLists.{trees_of};
    ghost use Rattle.exp_tree.specs.Tables.{IsTable};

    ghost Value = { List Tree };

    ghost coded = { coded_list coded_exp };

    ghost view = { λ t. trees_of t.nodes.keys };

    ghost invariant = { λ t. IsTable t.nodes.keys };
}

impl Table {
    /// A table of no tree.
    pub fn new(alloc: Global) -> Table
        ensures { result ≡ [] }
    {
        Table {
            nodes: IndexSet::with_hasher(alloc, ByNumber),
        }
    }

    /// No tree stands twice.
    pub fn known(&self)
        ensures { AreDistinct self.now }
    {
        let _nodes = &self.nodes;
    }

    /// The place of the tree of a node over the trees of the table, which is appended where it isn't there.
    pub fn put(&mut self, node: ExpNode) -> Result<u64, AllocError>
        requires right { node_fault self.old node ≡ None }
        requires formed { is_formed_node node ≡ true }
        requires rising { HasRisingTerms node }
        ensures trees { IfOk result (λ _. self.new ≡ insert_key same_tree self.old (tree_over self.old node)) }
        ensures place { IfOk result (λ place. slice_get self.new place ≡ Some (tree_over self.old node)) }
    {
        let (place, _) = self.nodes.insert_full(node)?;
        Ok(place as u64)
    }

    /// The trees as nodes.
    pub fn into_nodes(self, alloc: Global) -> Result<ExpNodes, AllocError>
        ensures nodes { IfOk result (λ nodes. nodes ≡ nodes_of self) }
        ensures trees { IfOk result (λ nodes. trees_of nodes ≡ self) }
        ensures right { IfOk result (λ nodes. IsWithoutNodeFault nodes) }
    {
        let Table { nodes } = self;
        let nodes = nodes.into_iter().collect(alloc)?;
        Ok(ExpNodes::from_vec(nodes))
    }
}
