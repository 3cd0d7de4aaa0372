//! What Herbrand instances of proofs and the introduction of a cut come to, after Hetzl, Leitsch, Reis and Weller (2014), and the laws of it.
#![tactic(auto)]

mod fault;
pub mod laws;

pub use fault::{HerbrandFault, IntroFault};
