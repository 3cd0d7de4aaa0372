//! A value that threads share and change in turns, whose list of entries only grows. Each thread has a pass, which knows a beginning of
//! that list.
#![tactic(auto)]

mod grows;
mod lends;
mod log;
mod rule;
mod turn;

pub use grows::Grows;
pub use log::{Pass, PassOf, TurnLog};
pub use turn::Turn;
