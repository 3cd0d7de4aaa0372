//! Clauses, subsumption and full resolvents, after Robinson (1965), and the laws of them.
#![tactic(auto)]

pub mod laws;
