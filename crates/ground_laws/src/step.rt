//! Steps of a refutation of ground clauses.

use fol::Formula;

/// A step of a refutation of ground clauses. Steps are numbered from 0, and so are the clauses.
#[derive(Drop)]
pub enum SatStep {
    /// The clause of this number.
    Input(u64),
    /// Resolution on an atom: it goes from the positive atoms of one step's clause and from the negative ones of another's, and the rest is
    /// joined.
    Resolve {
        positive: u64,
        negative: u64,
        atom: Formula,
    },
}
