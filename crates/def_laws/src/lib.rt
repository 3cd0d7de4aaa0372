//! Definitions of predicate symbols, and their unfolding in formulas and in proof trees: what they are, and the laws of them.
#![tactic(auto)]

mod fault;
pub mod laws;

pub use fault::DefFault;
