//! Lists of nodes.
ghost use Rattle.std.specs.Prelude.{◌≡◌, true};
ghost use Rattle.std.specs.List.{list_all};
ghost use Rattle.exp_tree.specs.FlatLists.{is_formed_node};

use crate::flat::ExpNode;
use std::marker::Model;

/// Nodes that name well-formed formulas, terms and variables.
#[derive(Drop)]
pub struct ExpNodes {
    items: Vec<ExpNode>,
}

impl Model for ExpNodes {
    ghost use Rattle.std.specs.Prelude.{◌≡◌, true, List};
    ghost use Rattle.std.specs.List.{list_all};
    ghost use Rattle.std.specs.Coded.{codes};
    ghost use Rattle.exp_tree.specs.declared.flat.ExpNode.{ExpNode as Node};
    ghost use Rattle.exp_tree.specs.contracts.flat.ExpNode as node;
    ghost use Rattle.exp_tree.specs.FlatLists.{is_formed_node};

    ghost Value = { List Node };

    ghost coded = { Prim.hlevel (codes, node.the_row.coded) };

    ghost view = { λ a. a.items.items };

    ghost invariant = { λ a. list_all is_formed_node a.items.items ≡ true };
}

impl ExpNodes {
    /// The nodes of a list, in its order.
    pub fn from_vec(items: Vec<ExpNode>) -> ExpNodes
        requires { list_all is_formed_node items.items ≡ true }
        ensures { result ≡ items.items }
    {
        ExpNodes { items }
    }

    /// The nodes, in order.
    pub fn as_slice(&self) -> &[ExpNode]
        ensures nodes { result.now ≡ self.now }
        ensures formed { list_all is_formed_node result.now ≡ true }
    {
        self.items.as_slice()
    }
}
