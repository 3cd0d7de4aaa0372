//! Inferences over proofs of a graph.
use crate::reference::ProofRef;
use lk_rules::{Rule, Sequent};

/// A last inference over proofs of a graph.
#[derive(Drop)]
pub struct Inference {
    pub rule: Rule,
    pub end: Sequent,
    pub premises: Vec<ProofRef>,
}
