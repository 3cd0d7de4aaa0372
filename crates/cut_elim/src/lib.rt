//! Elimination of cuts, after Gentzen (1935), over shared proofs: the first cut in post-order gives way to its contraction, until no cut
//! is left.
#![tactic(auto)]

mod begun;
mod desk;
mod eliminating;
mod forking;
mod known;
mod weighing;
mod whole;

pub use arena_cuts::ElimFault;
pub use desk::{Desk, DeskPass};
pub use eliminating::eliminate;
pub use known::{Elimination, Eliminations, Reduced};
pub use whole::eliminate_all;
