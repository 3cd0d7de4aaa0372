//! Bundles: the lines of several sessions in one input, told apart by switches.
#![tactic(auto)]

mod parts;
mod reading;
mod switches;

pub use parts::Part;
pub use reading::{Bundle, read_bundle};
