//! Clauses, and what a search answers.

use lk_rules::Formulas;
use refutations::ResStep;

/// A clause of atoms, as two sets: one of the negative ones is false, or one of the positive ones is true, whatever its variables are. As a
/// sequent it has the negative ones on the left and the positive ones on the right.
pub struct Lits {
    pub negative: Formulas,
    pub positive: Formulas,
}

impl Drop for Lits {
    fn drop(self) {
        let Lits { negative, positive } = self;
        drop(negative);
        drop(positive);
    }
}

/// How a search ends.
#[derive(Drop)]
pub enum Found {
    /// Steps that derive the empty clause.
    Refutation(Vec<ResStep>),
    /// Clauses that a further round brings nothing to.
    Saturated(Vec<Lits>),
}
