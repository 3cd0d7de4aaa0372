//! Proofs of a graph with all defined predicate symbols unfolded.
#![tactic(auto)]

mod flattening;

pub use flattening::flatten;
