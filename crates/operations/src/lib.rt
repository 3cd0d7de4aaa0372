//! The operations that jobs ask for, over the values that earlier jobs hold.
#![tactic(auto)]

mod answering;
mod answers;
mod building;
mod concluding;
mod defining;
mod expanding;
mod extracting;
mod given;
mod instancing;
mod interpolating;
mod introducing;
mod making;
mod proofs;
mod readings;
mod refuting;
mod satisfying;
mod saturating;
mod searching;
mod shown;
mod unfolding;

pub use answering::answer;
pub use held_values::Held;
pub use making::{has_refutation, with_proofs};
