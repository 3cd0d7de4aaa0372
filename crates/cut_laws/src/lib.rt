//! Contraction of cuts and elimination of them, one cut at a time: what takes the place of a cut, and the laws of it, after Gentzen (1935).
#![tactic(auto)]

mod case;
pub mod laws;

pub use case::Case;
