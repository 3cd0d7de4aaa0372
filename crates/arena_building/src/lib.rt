//! Proofs from expansion proofs, after Miller (1987), by numbers in an arena.
#![tactic(auto)]

mod added;
mod building;
mod dividing;
mod instances;
mod leaves;
mod lists;
mod placed;
mod sides;
mod steps;
mod whole;

pub use whole::build_in;
