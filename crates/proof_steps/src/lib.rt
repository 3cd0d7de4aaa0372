//! Proofs as lists of steps, and counts of nodes. Each distinct subtree is looked at once.
#![tactic(auto)]

mod counting;
mod faults;
mod listing;
mod step_list;
mod visiting;

pub use counting::{cuts, quants, size};
pub use faults::{exceeds, first_defined};
pub use step_list::{first_cut, nodes, steps};
