//! Proofs from expansion proofs, after Miller (1987): they are built in an arena, and put into a graph.
#![tactic(auto)]

mod building;

pub use building::build;
pub use building_laws::BuildFault;
