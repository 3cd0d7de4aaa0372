//! The JSON values of lines. Their texts are borrowed, so that reading a line copies none of them.
#![tactic(auto)]

mod members;
mod numbers;
mod reading;
mod values;

pub use members::in_order;
pub use numbers::Number;
pub use reading::{ValueError, read_value};
pub use values::Value;
