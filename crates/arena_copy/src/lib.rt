//! Copies of what stands in one arena in another one, as of a proof that a thread has worked on in an arena of its own.
#![tactic(auto)]

mod copied;
mod formulas;
mod rules;
mod sequents;
mod terms;
mod trees;

pub use trees::copy_tree;
