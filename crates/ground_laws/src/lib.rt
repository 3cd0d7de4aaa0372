//! Models and refutations of ground clauses, after Davis and Putnam (1960), the search that finds one of them, and the laws of it.
#![tactic(auto)]

pub mod laws;
mod step;

pub use step::SatStep;
