//! The operations that jobs ask for, as definitions over the values that earlier jobs hold: what each comes to, what it claims, and the
//! laws of that.
#![tactic(auto)]

pub mod laws;
mod refusals;

pub use refusals::{Failure, Refusal};
