//! Free variables and predicate symbols of formulas, as finite sets, the grade of a formula, and fresh variables.
#![tactic(auto)]

mod fresh_variables;
mod grades;
pub mod laws;
mod occurrences;
pub mod rising;
mod sets;
mod syms;
mod texts;
mod vars;

pub use fresh_variables::fresh;
pub use grades::grade;
pub use occurrences::{occurs_free, occurs_in_term, push_free_vars, push_preds, push_term_vars};
pub use sets::{free_vars, preds, term_vars};
pub use syms::Syms;
pub use texts::Texts;
pub use vars::Vars;
