//! JSON texts that are written token by token.
#![tactic(auto)]

mod text;

pub use text::JsonText;
