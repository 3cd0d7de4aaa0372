//! Herbrand sequents and the introduction of one cut, after Hetzl, Leitsch, Reis and Weller (2014).
#![tactic(auto)]

mod branch;
mod cut_formula;
mod filling;
mod instance;
mod instances;
mod instancing;
mod introduction;
mod items;
pub mod laws;
mod matrices;
mod performing;
mod planning;
mod prenex;
mod rules;
mod tuples;
mod variables;

pub use instancing::herbrand;
pub use introduction::{Introduced, introduce};
pub use introduction_laws::{HerbrandFault, IntroFault};
pub use items::herbrand_sequent;
