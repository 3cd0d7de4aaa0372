//! Tables that a session keeps of texts: the formulas that texts are, and the canonical texts of formulas. Reading and printing are
//! functions, so an entry is true for good.
#![tactic(auto)]

mod canonical;
mod formulas;
mod tables;

pub use canonical::CanonicalTexts;
pub use formulas::FormulaTexts;
pub use tables::TextTables;
