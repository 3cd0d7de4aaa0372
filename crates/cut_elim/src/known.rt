//! The law of the table of eliminations: which proof without cuts is reached from which proof.
ghost use Rattle.std.specs.Prelude.{◌≡◌, IfOk};

use memo_table::Law;
use proof_graph::{Graph, ProofRef};
use std::alloc::{AllocError, Global};

/// A proof without cuts, and the number of contractions that led to it.
#[derive(Drop)]
pub struct Reduced {
    pub proof: ProofRef,
    pub reductions: u64,
}

/// A proof, and what its elimination comes to.
#[derive(Drop)]
pub struct Elimination {
    pub proof: ProofRef,
    pub reduced: Reduced,
}

/// The law that the proof with the key's number comes to the proof without cuts after just so many contractions. By it the elimination is
/// known within each budget: there is none within a smaller one, and this one within each other.
pub struct Eliminations;

impl Law for Eliminations {
    ghost use Rattle.cut_elim.specs.Eliminations.{IsElimination, elimination_respects};

    type Key = u64;

    type Val = Elimination;

    type Home = Graph;

    ghost Truth = { IsElimination };

    fn copy(_alloc: Global, _home: &Graph, val: &Elimination) -> Result<Elimination, AllocError> {
        Ok(Elimination {
            proof: val.proof.keep()?,
            reduced: Reduced {
                proof: val.reduced.proof.keep()?,
                reductions: val.reduced.reductions,
            },
        })
    }

    ghost respects_cmp = { elimination_respects };
}
