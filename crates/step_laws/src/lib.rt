//! Lists of steps and proof trees: which step of a list is the first faulty one, the tree that the last step stands for, a tree as a list of
//! steps, and the laws of them.
#![tactic(auto)]

mod fault;
pub mod laws;

pub use fault::{AdmitFault, StepCause};
