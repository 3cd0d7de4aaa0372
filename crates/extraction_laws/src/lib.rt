//! Expansion proofs from proofs without cuts, after Miller (1987), and the laws of them.
#![tactic(auto)]

mod fault;
pub mod laws;

pub use fault::ExtractFault;
