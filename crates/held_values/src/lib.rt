//! What jobs hold for later ones, and the names of jobs in an operation.
#![tactic(auto)]

mod held;
mod names;
mod refutation;

pub use held::Held;
pub use names::{base_name, first_name, name_at, pair_name, second_name};
pub use refutation::Refutation;
