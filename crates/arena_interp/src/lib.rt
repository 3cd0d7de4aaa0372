//! Interpolation of the proofs of an arena, after Maehara (1960). Each proof is worked on once for each two parts that it gets.
#![tactic(auto)]

mod by_side;
mod closing;
mod endings;
mod interpolated;
mod interpolation;
mod leaves;
mod main_formula;
mod one_premise;
mod partition;
mod table;
mod two_premises;
mod upper;

pub use interpolated::Interpolated;
pub use interpolation::interpolate_in;
