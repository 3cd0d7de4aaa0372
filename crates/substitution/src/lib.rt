//! Substitution in formulas: instances of quantified formulas, unfoldings of atoms, binding of a variable, and simultaneous replacement of
//! free variables.
#![tactic(auto)]

mod binding;
mod bindings;
mod closing;
mod images;
mod instances;
pub mod laws;
mod maps;
mod restriction;
mod sharing;
mod unfolding;

pub use binding::bind;
pub use closing::{close_all, close_ex};
pub use images::{apply, apply_term};
pub use instances::{instance, is_instance};
pub use maps::Subst;
pub use unfolding::{is_unfolding, unfold};
