//! Search for a model or a refutation of ground clauses, by conflicts.
#![tactic(auto)]

mod analysis;
mod answer;
mod clause_index;
mod clauses;
mod derivations;
mod ground;
mod literal;
mod literal_set;
mod models;
mod numbering;
mod order;
mod plan;
mod recycling;
mod refuting;
mod resolutions;
mod solver;
mod solving;
mod tables;
mod trail;
mod watches;

pub use answer::{SatAnswer, SatSteps};
pub use ground::Ground;
pub use solving::solve;
