//! Proofs between a graph and an arena: a proof of the graph comes in with each distinct node put once, and a valid tree of the arena goes
//! out with each distinct node interned once, and its formulas put into order once. What came in or went out before is found again by its
//! number.
#![tactic(auto)]

mod exports;
mod hints;
mod imports;
mod inferences;
mod last_side;
mod leaving;
mod levels;
mod proof_numbers;
mod ranks;
mod rough_order;
mod runs;
mod within;

pub use exports::export_proof;
pub use imports::{import_proof, see_formed};
pub use proof_numbers::ProofNumbers;
