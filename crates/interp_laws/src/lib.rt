//! Interpolation of proofs without cuts, after Maehara (1960), and the laws of it.
#![tactic(auto)]

mod fault;
pub mod laws;

pub use fault::InterpFault;
