//! Expansion proofs from proofs without cuts, after Miller (1987).
#![tactic(auto)]

mod extraction;
mod faults;
mod fingerprints;
mod inferences;
mod maps;
mod marked_proof;
mod marks;
mod names;
mod pairing;
mod places;
mod reading;
mod roots;
mod sides;
mod variables;
mod visits;
mod walking;

pub use extraction::extract;
pub use extraction_laws::ExtractFault;
