//! Resolution by rounds: a search for the empty clause, or for a saturated set of clauses.
#![tactic(auto)]

mod answer;
mod bindings;
mod choices;
mod clashes;
mod ground_atoms;
mod imaging;
mod keeping;
mod kept;
mod links;
mod literals;
mod marked;
mod marks;
mod normal;
mod notes;
mod pairing;
mod partners;
mod planning;
mod refuting;
mod renaming;
mod resolving;
mod rounds;
mod saturating;
mod starting;
mod step_list;
mod subsumption;
mod unifiers;
mod work;

pub use answer::{Found, Lits};
pub use rounds::ProveFault;
pub use saturating::saturate;
