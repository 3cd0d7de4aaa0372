//! Rows of delta tables and the candidates for a cut that they give, after Hetzl, Leitsch, Reis and Weller (2014).
#![tactic(auto)]

mod candidates;
mod costs;
mod founds;
mod instances;
mod item;
mod items;
mod numbering;
mod parts;
mod pattern_lists;
mod places;
mod prefixes;
mod sets;
mod tables;
mod tallies;
mod tuples;

pub use candidates::{Candidate, best};
pub use delta_rows::{Row, Values, delta};
pub use instances::{Instances, count};
pub use item::Item;
pub use items::Items;
pub use pattern_lists::Patterns;
pub use prefixes::prefix;
pub use tuples::Tuples;
