//! The tokens of TPTP texts: what stands at the front of a text, and how it goes on from there.
#![tactic(auto)]

mod front;
mod pool;
mod symbols;
mod tokens;
mod words;

pub use front::{read_variable, scan};
pub use pool::Pool;
pub use tokens::{BinaryOperator, ChainOperator, Quantifier, Scan, TextFault, TextKind, Token};
