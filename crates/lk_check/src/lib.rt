//! Proofs that are written as lists of steps: which step is the first faulty one, and the tree that the last step stands for.
#![tactic(auto)]

mod admission;
mod checking;

pub use admission::admit;
pub use checking::first_fault;
pub use step_laws::{AdmitFault, StepCause};
