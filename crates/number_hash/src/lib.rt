//! A hasher for tables whose keys are numbers, or values that write one number in which unequal ones mostly differ.
#![tactic(auto)]

mod hasher;

pub use hasher::{ByNumber, NumberHasher};
