//! Resolution refutations with their unifiers written out, what each step derives, and the proof in LK that a refutation stands for.
#![tactic(auto)]

mod clause;
pub mod laws;
mod sequents;
mod step;
mod variables;

pub use clause::{Clause, VarList};
pub use sequents::{literals, resolvent};
pub use step::{ResCause, ResStep};
pub use variables::{clause_of, is_clause, own_variables};
