//! Rows of delta tables: the pattern of several tuples, and the set of the terms at which they differ.
#![tactic(auto)]

mod arguments;
mod order;
mod patterns;
mod rows;
mod values;

pub use order::compare_sizes;
pub use rows::{Row, delta};
pub use values::Values;
