//! The law that canonical texts of formulas and terms are read back as what they were printed from.
#![tactic(auto)]

pub mod laws;
mod reading;

pub use reading::read_back;
