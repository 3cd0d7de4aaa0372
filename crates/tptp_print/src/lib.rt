//! Canonical texts of formulas, terms and sequents in TPTP syntax. A formula has one canonical text:
//! a bound variable is printed as the numbered variable of its quantifier, which is free nowhere in the printed formula.
#![tactic(auto)]

mod choice;
mod formulas;
mod names;
mod printing;
mod terms;

pub use printing::{print_formula, print_sequent, print_term};
