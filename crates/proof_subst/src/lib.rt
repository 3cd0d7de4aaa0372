//! Substitution in shared proofs, by way of an arena that other transformations share. Each distinct subtree is done once for each map that
//! it gets.
#![tactic(auto)]

mod bench;
mod known;
mod numbers;
mod tree_images;

pub use bench::{Bench, BenchPass};
pub use known::{Image, ImageKey, Images};
pub use numbers::{make_room, number_of, proof_at};
pub use tree_images::substitute;
