//! What jobs and replies both speak of: names of jobs, texts, the rules and the nodes of expansion trees by their names, the steps of a
//! proof and of a refutation, clauses, formulas, variables and names of symbols that are well formed, and why a line isn't read.
#![tactic(auto)]

mod causes;
mod clauses;
mod formed;
mod kinds;
mod names;
mod node_kinds;
mod steps;
mod texts;

pub use causes::JobCause;
pub use clauses::ClauseList;
pub use formed::{FormedFormula, FormedVar, FormedVars, SymbolName};
pub use kinds::RuleKind;
pub use names::{Name, is_name};
pub use node_kinds::NodeKind;
pub use steps::{RefutationSteps, Steps};
pub use texts::{Utf8Text, Utf8Texts};
