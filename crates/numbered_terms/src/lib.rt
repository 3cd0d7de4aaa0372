//! Terms by numbers, so that the values of a row are found by comparing numbers.
#![tactic(auto)]

mod distinct_sets;
mod nodes;
mod number_sets;
mod numbering;
mod rows;
mod terms;

pub use distinct_sets::NumberSets;
pub use number_sets::NumberSet;
pub use numbering::number_tuples;
pub use terms::NumberedTerms;
