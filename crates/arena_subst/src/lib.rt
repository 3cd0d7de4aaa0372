//! Substitution in the proofs of an arena, where each distinct subtree is looked at once for each map that it gets, as long as the arena lives;
//! and the last rule of a proof under a new conclusion, with its premises.
#![tactic(auto)]

mod moved;
mod rule_images;
mod tree_images;
mod tree_variables;

pub use moved::{Moved, moved_to, replace};
pub use tree_images::substitute_in;
pub use tree_variables::tree_vars;
