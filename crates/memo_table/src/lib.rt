//! A table of true pairs that threads share. A look-up finds what any of them has noted.
#![tactic(auto)]

mod law;
pub mod laws;
mod memo;
mod rows;

pub use law::Law;
pub use memo::{Memo, MemoOf, MemoPass};
pub use rows::Pair;
