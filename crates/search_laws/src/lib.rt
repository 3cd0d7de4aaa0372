//! Truth of propositional sequents and search for their proofs, and the laws of it.
#![tactic(auto)]

mod fault;
pub mod laws;

pub use fault::SearchFault;
