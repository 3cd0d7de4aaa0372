//! Formulas and terms in TPTP syntax: the grammar, and a reader that goes token by token.
#![tactic(auto)]

mod arguments;
mod endings;
mod errors;
pub mod laws;
mod machine;
mod pieces;
mod reader;
mod state;
mod terms;
mod units;
mod variables;

pub use arguments::Arguments;
pub use errors::{StepError, TextError};
pub use reader::{read_formula, read_term};
pub use state::{Call, Frame, LIMITS, Limits, Mode, Outcome, Part, Side, State};
pub use variables::Variables;
