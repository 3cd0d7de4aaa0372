//! Reply lines: what is said to a job, as a line of JSON.
#![tactic(auto)]

mod answers;
mod certificates;
mod expansions;
pub mod laws;
mod lines;
mod maps;
mod members;
mod replies;
mod steps;
mod terms;
mod tree_faults;

pub use lines::reply_line;
pub use replies::{ExpSummary, Outcome, RefutationShown, Reply, StepShown, Summary};
