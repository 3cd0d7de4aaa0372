//! Unification and matching of terms.
#![tactic(auto)]

mod classes;
mod faults;
mod joining;
mod matching;
mod numbering;
mod shapes;
mod unifying;
mod values;

pub use faults::UnifyFault;
pub use matching::{match_onto, match_terms};
pub use unifying::mgu;
