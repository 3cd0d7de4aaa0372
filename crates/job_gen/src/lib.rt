//! Generated jobs: a load for a server, as lines of JSON.
#![tactic(auto)]

mod chains;
mod derivations;
mod jobs;
pub mod laws;
mod lines;
mod members;
mod texts;

pub use lines::{generate, generate_line};
