//! The trees that nodes stand for, which only contracts see.
ghost use Rattle.std.specs.Prelude.{◌≡◌};
ghost use base.Fml.{ftrue};
ghost use Rattle.proof_trees.specs.Trees.{Tree};
ghost use Rattle.proof_trees.specs.Codes.{coded_tree};

use crate::key::Key;
use std::marker::{Model, PhantomData};

/// How a tree is read off a value.
pub(crate) trait Means<X> {
    ghost tree: { X → Tree };
}

/// A proof tree as contracts see it. It has no bytes and owns nothing, so that only clauses tie `tree`.
pub(crate) struct ProofTree {
    marker: PhantomData<()>,
    pub ghost tree: { Tree } by { coded_tree },
}

impl Model for ProofTree {
    ghost also_owns = { λ _. ftrue };
}

impl ProofTree {
    /// The tree that a value means.
    pub fn of<X, M: Means<X>>(x: &X) -> ProofTree
        ensures { result.tree ≡ M.tree x.now }
    {
        let _ = x;
        ProofTree {
            marker: PhantomData,
        }
    }
}

impl Drop for ProofTree {
    fn drop(self) {
        let Self { marker: _ } = self;
    }
}

unsafe impl Send for ProofTree {}

unsafe impl Sync for ProofTree {}

/// What stands at a number of a graph: a node, with the tree that it stands for.
#[derive(Drop)]
pub(crate) struct Stamp {
    pub key: Key,
    pub tree: ProofTree,
}

/// The nodes of a graph.
pub(crate) type Nodes = boxcar::Vec<Stamp>;
