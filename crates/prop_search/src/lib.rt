//! Search for proofs of sequents without quantifiers: a proof without cuts, or an assignment under which the sequent is false.
#![tactic(auto)]

mod bits;
mod choices;
mod connective;
mod deciding;
mod made;
mod numbered;
mod numbering;
mod parts;
mod proving;
mod quantifiers;
mod seen;
mod sides;

pub use deciding::decide;
pub use proving::search;
pub use quantifiers::{has_quantifier, is_propositional};
pub use search_laws::SearchFault;
