//! Nodes.
use lk_rules::{Numbers, Rule, Sequent};

/// A node of a graph: the last inference of the tree that it stands for, with the numbers of the nodes that its premises are.
#[derive(Drop)]
pub struct Node {
    pub rule: Rule,
    pub end: Sequent,
    pub premises: Numbers,
}
