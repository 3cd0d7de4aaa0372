//! Proofs in an arena: reading a proof's last inference, making an inference over premises, and the auxiliary formulas of these.
#![tactic(auto)]

mod auxiliary;
mod inferences;
mod rules;

pub use auxiliary::with_aux;
pub use inferences::{end, inference, premises, put_node, rule};
pub use rules::{export_rule, import_rule, rule_eigenvariable, rule_formula, rule_term, rule_with};
