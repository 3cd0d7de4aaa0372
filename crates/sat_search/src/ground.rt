//! Ground clauses.

use lk_rules::Formulas;

/// A clause of atoms without variables, as two sets of atoms: one of the negative ones is false, or one of the positive ones is true. As a
/// sequent it has the negative ones on the left and the positive ones on the right.
pub struct Ground {
    pub negative: Formulas,
    pub positive: Formulas,
}

impl Drop for Ground {
    fn drop(self) {
        let Ground { negative, positive } = self;
        drop(negative);
        drop(positive);
    }
}

impl Ground {
    /// Whether an atom stands on both sides, so that the clause holds whatever is true.
    pub(crate) fn is_tautology(&self) -> bool {
        self.negative
            .as_slice()
            .iter()
            .any(|atom| self.positive.has(atom))
    }
}
