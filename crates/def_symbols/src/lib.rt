//! Definitions of predicate symbols: a symbol that stands for a formula, formulas in which symbols get their definitions, and formulas in
//! which all defined symbols are unfolded.
#![tactic(auto)]

mod counting;
mod defining;
mod flattening;
mod marking;
mod sharing;
mod table;
mod twice;

pub use defining::define;
pub use flattening::flat;
pub use marking::{mark, mark_rule, mark_sequent};
pub use table::Definitions;
pub use twice::first_twice;
