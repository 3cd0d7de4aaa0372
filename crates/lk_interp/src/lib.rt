//! Interpolation over shared proofs, after Maehara (1960), by way of an arena.
#![tactic(auto)]

mod faults;
mod interpolation;

pub use interp_laws::InterpFault;
pub use interpolation::{Interp, interpolate};
