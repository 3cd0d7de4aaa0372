//! Proofs of an arena with all defined predicate symbols unfolded, in another arena. Each distinct part is worked on once.
#![tactic(auto)]

mod flattened;
mod formulas;
mod plain;
mod rules;
mod sequents;
mod terms;
mod trees;

pub use trees::unfold_tree;
