//! Problems in TPTP syntax: lists of `fof` and `cnf` entries, each with a name, a role and a formula, and the sequent that a problem is.
#![tactic(auto)]

mod annotations;
mod bodies;
mod clause_list;
mod clause_places;
mod closures;
mod entries;
mod errors;
pub mod laws;
mod names;
mod problems;
mod reader;
mod roles;
mod sequents;
mod tokens;

pub use clause_list::clauses;
pub use errors::{ProblemError, ProblemKind};
pub use problems::{Entries, Entry, Language, Problem, Role};
pub use reader::read_problem;
