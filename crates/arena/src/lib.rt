//! An arena: symbols, terms, formulas, sets of them, sequents and proof trees by numbers, for the time of one call.
//!
//! What has been worked out once, as an instance, an image or a set of free variables, is found again by the numbers that it was asked of.
#![tactic(auto)]

mod arena;
mod changes;
mod imports;
mod lists;
mod maps;
mod places;
mod same_tasks;
mod sequents;
mod sides;
mod task;
mod unfoldings;
mod variables;

pub use arena::Arena;
pub use arena_cells::{Key, Numbers, Parts, RuleKey};
pub use task::{Change, Task};
