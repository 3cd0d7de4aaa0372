//! Proofs as shared trees: each node stands once, and a reference to it means a valid tree. Threads share a graph of them.
#![tactic(auto)]

mod boxed;
mod counts;
mod graph;
mod index;
mod inference;
mod key;
pub mod laws;
mod node;
mod places;
mod reference;
mod tree;

pub use counts::Counts;
pub use graph::{Graph, GraphPass};
pub use inference::Inference;
pub use key::Key;
pub use node::Node;
pub use reference::ProofRef;
