//! The words of the command line: `gaptd [--workers N] [--gen N] [--sessions]`.
#![tactic(auto)]

pub mod laws;
mod numbers;
mod reading;

pub use reading::{Settings, WordsError, read_words};
