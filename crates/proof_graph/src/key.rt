//! Shared nodes as keys of a table: keys are compared by their parts, and hashed by a few multiplications.
ghost use Rattle.std.specs.Prelude.{◌≡◌, ◌↔◌, IsTrue, IfOk, fold};
ghost use Rattle.std.specs.Hash as fed;
ghost use Rattle.std.specs.Cmp.{partial_equiv_from_equiv};
ghost use Rattle.fol.specs.Mixing.{mixed};
ghost use Rattle.number_hash.specs.Codes.{same_by_equiv, fingerprints_agree};
ghost use Rattle.proof_graph.specs.Keys.{coded_node, same_node, node_fingerprint};

use crate::node::Node;
use fol::mix;
use std::alloc::{AllocError, Global};
use std::hash::{Hash, Hasher};
use std::marker::Model;
use std::sync::Arc;

/// A node that is shared, with its fingerprint: the key by which it is found.
#[derive(Drop)]
pub struct Key {
    fingerprint: u64,
    node: Arc<Node>,
}

impl Model for Key {
    ghost use Rattle.proof_graph.specs.declared.node.Node.{Node as Plain};
    ghost use Rattle.proof_graph.specs.contracts.node.Node as plain;

    ghost Value = { Plain };

    ghost coded = { plain.the_row.coded };

    ghost use Rattle.std.specs.Prelude.{◌≡◌};
    ghost use Rattle.proof_graph.specs.Keys.{node_fingerprint};

    ghost view = { λ k. k.node.value };

    ghost invariant = { λ k. k.fingerprint ≡ node_fingerprint k.node.value };
}

// The fingerprint with the numbers of a list in it.
fn with_numbers(fingerprint: u64, numbers: &[u64]) -> u64
    ensures { result ≡ fold mixed fingerprint numbers.now }
{
    let mut mixed = fingerprint;
    for number in numbers {
        mixed = mix(mixed, *number);
    }
    mixed
}

#[tactic(auto, unfolding(crate::specs::Keys::node_fingerprint))]
fn fingerprint_of(node: &Node) -> u64
    ensures { result ≡ node_fingerprint node.now }
{
    let inference = mix(node.rule.fingerprint(), node.end.fingerprint());
    with_numbers(inference, node.premises.as_slice())
}

impl Key {
    /// The key that is this node.
    pub fn new(alloc: Global, node: Node) -> Result<Key, AllocError>
        ensures { IfOk result (λ key. key ≡ node) }
    {
        let fingerprint = fingerprint_of(&node);
        let node = Arc::new(alloc, node)?;
        Ok(Key { fingerprint, node })
    }

    /// The node.
    pub fn node(&self) -> &Node
        ensures { result.now ≡ self.now }
    {
        &self.node
    }

    /// The same key, whose node is shared.
    pub fn keep(&self) -> Result<Key, AllocError>
        ensures { IfOk result (λ key. key ≡ self.now) }
    {
        let node = Arc::try_clone(&self.node)?;
        let fingerprint = self.fingerprint;
        Ok(Key { fingerprint, node })
    }

    /// A number in which unequal keys mostly differ.
    pub(crate) fn fingerprint(&self) -> u64
        ensures { result ≡ node_fingerprint self.now }
    {
        self.fingerprint
    }
}

// Whether the nodes are equal. Numbers are told apart soonest.
fn is_same(one: &Node, other: &Node) -> bool
    ensures { IsTrue result ↔ (one.now ≡ other.now) }
{
    one.premises.as_slice() == other.premises.as_slice()
        && one.rule == other.rule
        && one.end == other.end
}

/// Whether the keys are equal. Unequal ones mostly differ in their fingerprints, so that their nodes are left alone.
pub(crate) fn is_same_key(one: &Key, other: &Key) -> bool
    ensures { IsTrue result ↔ (one.now ≡ other.now) }
{
    one.fingerprint() == other.fingerprint() && is_same(one.node(), other.node())
}

impl PartialEq for Key {
    ghost eq = { same_node };

    ghost laws = { partial_equiv_from_equiv (same_by_equiv coded_node) };

    fn eq(&self, other: &Key) -> bool
        ensures value { result ≡ same_node self.now other.now }
        ensures same { IsTrue result ↔ (self.now ≡ other.now) }
    {
        is_same_key(self, other)
    }
}

impl Eq for Key {
    ghost laws = { same_by_equiv coded_node };
}

impl Hash for Key {
    ghost hash_input = { λ k. fed.u64 (node_fingerprint k) };

    ghost respects_eq = { fingerprints_agree coded_node node_fingerprint };

    fn hash<H: Hasher>(&self, state: &mut H) {
        state.write_u64(self.fingerprint());
    }
}
