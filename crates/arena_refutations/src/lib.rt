//! The proofs in LK that resolution refutations stand for, by numbers in an arena.
#![tactic(auto)]

mod clauses;
mod closing;
mod faults;
mod input_trees;
mod planning;
mod proving;

pub use clauses::clauses_of_refutation;
pub use faults::ImportFault;
pub use proving::prove_last;
