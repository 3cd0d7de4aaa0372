//! Nodes as keys of a table.
ghost use Rattle.std.specs.Prelude.{◌≡◌, ◌↔◌, ◌≤◌, IsTrue, fold};
ghost use Rattle.std.specs.Hash as fed;
ghost use Rattle.std.specs.Cmp.{partial_equiv_from_equiv};
ghost use Rattle.number_hash.specs.Codes.{same_by_equiv, fingerprints_agree};
ghost use Rattle.exp_tree.specs.Tables.{coded_node, same_node, with_inst, node_fingerprint};

use crate::flat::ExpNode;
use crate::flat_insts::FlatInsts;
use fol::{Term, mix};
use std::hash::{Hash, Hasher};

// Whether the same instances stand in both lists.
fn are_same_insts(one: &FlatInsts, other: &FlatInsts) -> bool
    ensures { IsTrue result ↔ (one.now ≡ other.now) }
{
    one.as_slice() == other.as_slice()
}

fn is_same(one: &ExpNode, other: &ExpNode) -> bool
    ensures { IsTrue result ↔ (one.now ≡ other.now) }
{
    match (one, other) {
        (ExpNode::Wk(f), ExpNode::Wk(g)) => *f == *g,
        (ExpNode::Leaf(f), ExpNode::Leaf(g)) => *f == *g,
        (ExpNode::Not(k), ExpNode::Not(m)) => k == m,
        (ExpNode::And(k, l), ExpNode::And(m, n)) => k == m && l == n,
        (ExpNode::Or(k, l), ExpNode::Or(m, n)) => k == m && l == n,
        (ExpNode::Imp(k, l), ExpNode::Imp(m, n)) => k == m && l == n,
        (ExpNode::Weak(f, is), ExpNode::Weak(g, js)) => *f == *g && are_same_insts(is, js),
        (ExpNode::Strong(f, y, m), ExpNode::Strong(g, z, n)) => m == n && *y == *z && *f == *g,
        _ => false,
    }
}

impl PartialEq for ExpNode {
    ghost eq = { same_node };

    ghost laws = { partial_equiv_from_equiv (same_by_equiv coded_node) };

    fn eq(&self, other: &ExpNode) -> bool
        ensures value { result ≡ same_node self.now other.now }
        ensures same { IsTrue result ↔ (self.now ≡ other.now) }
    {
        is_same(self, other)
    }
}

impl Eq for ExpNode {
    ghost laws = { same_by_equiv coded_node };
}

// The fingerprint with those of instances in it.
fn with_insts(fingerprint: u64, insts: &[(Term, u64)]) -> u64
    ensures { result ≡ fold with_inst fingerprint insts.now }
{
    let mut mixed = fingerprint;
    for inst in insts {
        mixed = mix(mix(mixed, inst.0.fingerprint()), inst.1);
    }
    mixed
}

impl ExpNode {
    // A number in which unequal nodes mostly differ.
    #[tactic(auto, unfolding(crate::specs::Tables::node_fingerprint))]
    fn fingerprint(&self) -> u64
        ensures { result ≡ node_fingerprint self.now }
    {
        match self {
            ExpNode::Wk(formula) => mix(0, formula.fingerprint()),
            ExpNode::Leaf(formula) => mix(1, formula.fingerprint()),
            ExpNode::Not(body) => mix(2, *body),
            ExpNode::And(first, second) => mix(mix(3, *first), *second),
            ExpNode::Or(first, second) => mix(mix(4, *first), *second),
            ExpNode::Imp(first, second) => mix(mix(5, *first), *second),
            ExpNode::Weak(formula, insts) => {
                with_insts(mix(6, formula.fingerprint()), insts.as_slice())
            }
            ExpNode::Strong(formula, var, child) => {
                mix(
                    mix(mix(7, formula.fingerprint()), var.fingerprint()),
                    *child,
                )
            }
        }
    }
}

impl Hash for ExpNode {
    ghost hash_input = { λ n. fed.u64 (node_fingerprint n) };

    ghost respects_eq = { fingerprints_agree coded_node node_fingerprint };

    fn hash<H: Hasher>(&self, state: &mut H) {
        state.write_u64(self.fingerprint());
    }
}
