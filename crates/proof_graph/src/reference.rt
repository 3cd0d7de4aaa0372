//! References to proofs.
ghost use Rattle.std.specs.Prelude.{◌≡◌, ◌↔◌, IsTrue, IfOk, length};
ghost use Rattle.std.specs.List.{All};
ghost use Rattle.proof_trees.specs.Trees.{node, below, count, IsValid, IsInference};
ghost use Rattle.proof_graph.specs.References.{key_of, trees_of, numbers_of};
ghost use Rattle.proof_graph.specs.Counts.{AreCountsOf};

use crate::counts::{Counts, counts_over};
use crate::key::Key;
use crate::node::Node;
use crate::tree::{Means, Nodes, ProofTree, Stamp};
use boxcar::Pushed;
use std::alloc::{AllocError, Global};
use std::marker::Model;
use std::snapshot::Snapshot;
use std::sync::{Arc, Wait};

/// A reference to a node of a graph. It means a valid tree.
#[cycle(reference)]
pub struct ProofRef {
    token: Pushed<Stamp>,
    link: Arc<RefLink>,
}

impl Drop for ProofRef {
    #[cycle(reference_drop)]
    fn drop(self) {
        let ProofRef { token, link } = self;
        drop(token);
        drop(link);
    }
}

#[cycle(reference)]
#[derive(Drop)]
pub(crate) struct RefLink {
    home: Snapshot<Nodes>,
    counts: Counts,
    premises: Vec<ProofRef>,
}

impl Model for ProofRef {
    ghost use Rattle.proof_graph.specs.References.{Reference, coded_reference};

    ghost Value = { Reference };

    ghost coded = { coded_reference };

    ghost use Rattle.std.proofs.Common.{arith};
    ghost use Rattle.proof_trees.specs.TreeLists.{nodes};
    ghost use Rattle.proof_graph.specs.Kept.{reference_of, IsKept, falls};

    ghost view = { λ r. reference_of r.token r.link.value };

    ghost invariant = { λ r. IsKept r.token r.link.value };

    ghost size = { λ v. nodes v.tree };

    ghost size_decreases = { λ a h. omega (arith, falls a.token a.link.value h) };
}

impl ProofRef {
    /// The number of the node in its graph.
    pub fn number(&self) -> u64
        ensures { result ≡ self.now.number }
    {
        self.token.index() as u64
    }

    /// The references of the premises.
    pub fn premises(&self) -> &[ProofRef]
        ensures numbers { numbers_of result.now ≡ self.now.premises }
        ensures trees { trees_of result.now ≡ below self.now.tree }
        ensures home { All (λ p. p.home ≡ self.now.home) result.now }
    {
        &self.link.premises
    }

    /// A reference means a valid tree, and has a number for each tree below its root.
    pub fn known(&self)
        ensures valid { IsValid self.now.tree }
        ensures premises { length self.now.premises ≡ count (below self.now.tree) }
    {
        let _link = &self.link;
    }

    /// How many nodes the tree has, all, by cut and by quantifier rules. The reference keeps these numbers.
    pub fn counts(&self) -> Counts
        ensures { AreCountsOf result self.now.tree }
    {
        self.link.counts
    }

    /// The same reference once more.
    pub fn keep(&self) -> Result<ProofRef, AllocError>
        ensures { IfOk result (λ kept. kept ≡ self.now) }
    {
        let link = Arc::try_clone(&self.link)?;
        let token = self.token.again();
        Ok(ProofRef { token, link })
    }

    // The key at its number.
    pub(crate) fn key<'g>(&self, nodes: &'g Nodes) -> &'g Key
        requires { self.now.home ≡ nodes.now }
        ensures { result.now ≡ key_of self.now }
    {
        &nodes.value(&self.token).key
    }

    // Whether the numbers are equal. References of one graph with one number are one reference.
    pub(crate) fn is_same(&self, nodes: &Nodes, other: &ProofRef) -> bool
        requires mine { self.now.home ≡ nodes.now }
        requires theirs { other.now.home ≡ nodes.now }
        ensures number { IsTrue result ↔ (self.now.number ≡ other.now.number) }
        ensures same { IsTrue result → self.now ≡ other.now }
    {
        if self.number() != other.number() {
            return false;
        }
        nodes.agrees(&self.token, &other.token);
        true
    }
}

/// The references of a list, once more.
pub(crate) fn keep_all(alloc: Global, proofs: &[ProofRef]) -> Result<Vec<ProofRef>, AllocError>
    ensures { IfOk result (λ kept. kept.items ≡ proofs.now) }
{
    let mut kept = Vec::with_capacity(alloc, proofs.len())?;
    for proof in proofs {
        kept.push(proof.keep()?)?;
    }
    Ok(kept)
}

// The trees of references are valid.
fn see_valid(proofs: &[ProofRef])
    ensures { All (λ r. IsValid r.tree) proofs.now }
{
    for proof in proofs {
        proof.known();
    }
}

// An inference over the trees that references mean, as contracts see it.
#[derive(Drop)]
struct SeenInference {
    root: Snapshot<Node>,
    premises: Snapshot<Vec<ProofRef>>,
}

struct Over;

impl Means<SeenInference> for Over {
    ghost tree = { λ i. node i.root.value.rule i.root.value.end (trees_of i.premises.value.items) };
}

// The tree of a node over the trees that the references of its premises mean.
fn tree_over(root: &Node, premises: &Vec<ProofRef>) -> ProofTree
    ensures { result.tree ≡ node root.now.rule root.now.end (trees_of premises.now.items) }
{
    let inference = SeenInference {
        root: Snapshot::of(root),
        premises: Snapshot::of(premises),
    };
    ProofTree::of::<SeenInference, Over>(&inference)
}

/// What a reference is made of but for its place in the graph: all that is needed of memory, so that a node is put in soon.
#[derive(Drop)]
pub(crate) struct Draft {
    stamp: Stamp,
    link: Arc<RefLink>,
}

impl Draft {
    ghost use Rattle.proof_graph.specs.Drafts.{IsDraftOf, drafted};

    /// The premises.
    pub fn premises(&self) -> &[ProofRef]
        ensures { result.now ≡ self.now.link.value.premises.items }
    {
        &self.link.premises
    }

    /// The draft of the reference of a node whose premises are these.
    pub fn new(
        alloc: Global,
        nodes: &Nodes,
        key: &Key,
        premises: Vec<ProofRef>,
    ) -> Result<Draft, AllocError>
        requires of { All (λ p. p.home ≡ nodes.now) premises.items }
        requires numbers { key.now.premises ≡ numbers_of premises.items }
        requires inference { IsInference key.now.rule key.now.end (trees_of premises.items) }
        ensures draft { IfOk result (IsDraftOf nodes.now key.now) }
        ensures tree { IfOk result (λ d. drafted d ≡ node key.now.rule key.now.end (trees_of premises.items)) }
    {
        let root = key.node();
        see_valid(&premises);
        let counts = counts_over(&root.rule, &premises);
        let tree = tree_over(root, &premises);
        let key = key.keep()?;
        let stamp = Stamp { key, tree };
        let link = RefLink {
            home: Snapshot::of(nodes),
            counts,
            premises,
        };
        let link = Arc::new(alloc, link)?;
        Ok(Draft { stamp, link })
    }

    /// Puts the node into the graph, and answers its reference. The caller sees to it that the key isn't there yet.
    pub fn enter<R: Wait>(self, rt: &R, nodes: &Nodes, key: &Key) -> Result<ProofRef, AllocError>
        requires { IsDraftOf nodes.now key.now self }
        ensures home { IfOk result (λ r. r.home ≡ nodes.now) }
        ensures key { IfOk result (λ r. key_of r ≡ key.now) }
        ensures tree { IfOk result (λ r. r.tree ≡ drafted self) }
    {
        let _key = key;
        let Draft { stamp, link } = self;
        let Ok(token) = nodes.push_shown(rt, stamp) else {
            return Err(AllocError);
        };
        Ok(ProofRef { token, link })
    }
}
