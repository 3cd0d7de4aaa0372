//! The check of expansion proofs, after Miller (1987): the conditions on the variables of strong quantifiers, and the search for a proof of
//! what the trees stand for.
#![tactic(auto)]

mod checking;
mod cycles;
mod dependency;
mod eigenvariables;
mod links;
mod ranks;

pub use checking::check_proof;
pub use dependency::{Edge, edges};
pub use eigenvariables::{eigen_free, eigen_twice};
pub use expansion_laws::ExpFault;
