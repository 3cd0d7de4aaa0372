//! From resolution refutations to proofs: the proof that a refutation stands for is made in an arena, and put into the graph of a bench.
#![tactic(auto)]

mod importing;

pub use arena_refutations::ImportFault;
pub use importing::import;
