//! Steps of a refutation.

use fol::Formula;
use substitution::Subst;

/// A step of a refutation. Steps are numbered from 0, and so are the clauses.
#[derive(Drop)]
pub enum ResStep {
    /// The clause of this number.
    Input(u64),
    /// The clause that the step of this number derives, under a map from variables to terms.
    Subst(u64, Subst),
    /// Binary resolution on an atom: it goes from the positive literals of one step's clause and from the negative ones of another's, and
    /// the rest is joined.
    Resolve {
        positive: u64,
        negative: u64,
        atom: Formula,
    },
}

/// Why a step of a refutation is refused.
#[derive(Clone, Copy, PartialEq, Eq)]
pub enum ResCause {
    /// It names no clause, or no earlier step.
    Reference,
    /// The atom isn't among the positive literals of the one clause, or not among the negative ones of the other.
    AtomMissing,
    /// It is the last step, and its clause isn't empty; or there is no step.
    NotEmpty,
}
