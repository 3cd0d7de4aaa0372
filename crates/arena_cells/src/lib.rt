//! Things by numbers: symbols, terms, formulas, sets of them, sequents and proof trees, each once.
//!
//! A thing is found by its key, which has the numbers of its parts. Equal things have equal numbers, so that a comparison is one of numbers.
#![tactic(auto)]

mod cells;
mod key;
mod numbers;
mod same_keys;
mod values;

pub use cells::Cells;
pub use key::{Key, Parts, RuleKey};
pub use numbers::Numbers;
