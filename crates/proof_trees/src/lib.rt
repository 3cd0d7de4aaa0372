//! Proof trees of the calculus LK, without numbers or sharing, and the laws of one inference in them.
#![tactic(auto)]

pub mod laws;
