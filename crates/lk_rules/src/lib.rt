//! The calculus LK: sequents, rules, and the check of one inference.
//!
//! A sequent is two finite sets of formulas. It says that where all formulas on its left side are true, one on its right side is.
#![tactic(auto)]

mod auxiliary;
mod formulas;
mod inference;
mod items;
pub mod laws;
mod numbers;
mod rule;
mod rule_order;
mod sequent;
mod variable_instances;

pub use auxiliary::aux;
pub use formulas::Formulas;
pub use inference::{RuleFault, check};
pub use numbers::Numbers;
pub use rule::{Rule, Step};
pub use sequent::{Sequent, Side};
