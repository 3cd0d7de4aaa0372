//! What jobs hold for later ones.
ghost use Rattle.std.specs.Prelude.{◌≡◌, IfOk, IfSome};
ghost use Rattle.proof_graph.specs.declared.graph.Graph.{Graph};
ghost use Rattle.operation_laws.specs.Values.{IsSound};
ghost use Rattle.held_values.specs.Means.{sense, Fits};

use crate::refutation::Refutation;
use exp_tree::CheckedExp;
use fol::Predicate;
use proof_graph::ProofRef;
use std::alloc::{AllocError, Global};
use tptp_problem::Problem;

/// The value that a name of a job stands for: what the job holds.
pub enum Held {
    /// Nothing that a later job could use.
    Nothing,
    /// The job was refused.
    Refused,
    /// The job reported want of memory.
    Unheld,
    /// No earlier job has the name. No job holds this.
    Unknown,
    /// A proof, by its reference in the graph that the session's proofs share.
    Proof(ProofRef),
    /// A proof that isn't made yet, by the refutation that it stands for.
    Refutation(Refutation),
    /// The two proofs of an interpolant, by their references in that graph: that of the first part, and that of the second.
    Pair(ProofRef, ProofRef),
    /// A problem.
    Problem(Problem),
    /// Expansion trees that are an expansion proof of the sequent of their formulas.
    Expansion(CheckedExp),
    /// A predicate symbol that stands for a formula.
    Definition(Predicate),
}

impl Drop for Held {
    fn drop(self) {
        match self {
            Held::Proof(proof) => drop(proof),
            Held::Refutation(refutation) => drop(refutation),
            Held::Pair(first, second) => {
                drop(first);
                drop(second);
            }
            Held::Problem(problem) => drop(problem),
            Held::Expansion(trees) => drop(trees),
            Held::Definition(symbol) => drop(symbol),
            Held::Nothing | Held::Refused | Held::Unheld | Held::Unknown => {}
        }
    }
}

impl Held {
    /// The same value, whose proofs, problem, trees or formula are shared.
    pub fn copy(&self, alloc: Global) -> Result<Held, AllocError>
        ensures { IfOk result (λ copy. copy ≡ self.now) }
    {
        match self {
            Held::Nothing => Ok(Held::Nothing),
            Held::Refused => Ok(Held::Refused),
            Held::Unheld => Ok(Held::Unheld),
            Held::Unknown => Ok(Held::Unknown),
            Held::Proof(proof) => Ok(Held::Proof(proof.keep()?)),
            Held::Refutation(refutation) => Ok(Held::Refutation(refutation.copy()?)),
            Held::Pair(first, second) => Ok(Held::Pair(first.keep()?, second.keep()?)),
            Held::Problem(problem) => Ok(Held::Problem(problem.copy()?)),
            Held::Expansion(trees) => Ok(Held::Expansion(trees.copy(alloc)?)),
            Held::Definition(symbol) => Ok(Held::Definition(symbol.copy()?)),
        }
    }

    /// A value that fits a graph is sound: a proof is valid, a problem is such as is read, trees are an expansion proof, and a symbol is well
    /// formed.
    pub fn known(&self)
        requires { (g : Graph) × Fits g self.now }
        ensures { IfSome (sense self.now) IsSound }
    {
        match self {
            Held::Proof(proof) => proof.known(),
            Held::Pair(first, second) => {
                first.known();
                second.known();
            }
            Held::Expansion(trees) => {
                let _trees = trees.tree();
            }
            Held::Nothing
            | Held::Refused
            | Held::Unheld
            | Held::Unknown
            | Held::Refutation(_)
            | Held::Problem(_)
            | Held::Definition(_) => {}
        }
    }
}
