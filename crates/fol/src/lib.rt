//! The syntax of first-order logic: symbols, variables, terms and formulas, with their order and the test that they are well formed.
//!
//! Values share their nodes: `copy` adds one owner to a node, and copies no tree. A bound variable is an index, the number of
//! quantifiers between it and its own. Names are shared texts of bytes. A predicate symbol may carry a body, a closed formula that its atoms
//! stand for.
#![tactic(auto)]

mod facts;
mod formed;
mod numerals;
mod order;
mod symbols;
mod syntax;
mod texts;

pub use facts::mix;
pub use formed::{well_formed, well_formed_sym, well_formed_term, well_formed_var};
pub use numerals::numbered;
pub use symbols::{Sym, Var};
pub use syntax::{Formula, FormulaNode, Predicate, Term, TermNode, Terms, TermsLink};
pub use texts::Text;
