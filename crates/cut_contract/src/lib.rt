//! Contraction of one cut whose premises have no cut, after Gentzen (1935), over references to proofs, by way of an arena.
#![tactic(auto)]

mod contraction;

pub use arena_cuts::Steps;
pub use contraction::contract;
