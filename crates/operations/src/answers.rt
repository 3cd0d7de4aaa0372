//! What operations come to.
use exp_tree::{CheckedExp, FlatExp};
use fol::{Formula, Sym};
use held_values::Refutation;
use job_words::{ClauseList, FormedFormula, Steps};
use lk_rules::{Formulas, Sequent};
use operation_laws::{Failure, Refusal};
use proof_graph::ProofRef;
use tptp_problem::Problem;

/// What an operation makes.
#[derive(Drop)]
pub enum Made {
    /// A proof.
    Proof(ProofRef),
    /// A proof that was met after a number of replacements.
    Reduced(ProofRef, u64),
    /// A problem.
    Problem(Problem),
    /// Whether a proof proves a problem.
    Proves(bool),
    /// The canonical steps of a proof.
    Steps(Steps),
    /// How many cuts, nodes that differ, quantifier rules and nodes in all the tree of a proof has.
    Sizes {
        cuts: u64,
        nodes: u64,
        quants: u64,
        size: u64,
    },
    /// Expansion trees that are an expansion proof of the sequent of their formulas.
    Expansion(CheckedExp),
    /// The trees of an expansion proof as a flat list.
    Nodes(FlatExp),
    /// An interpolant, with the proof of the first part and that of the second.
    Interpolant {
        formula: FormedFormula,
        first: ProofRef,
        second: ProofRef,
    },
    /// The Herbrand sequent of a proof, and how many tuples its quantified formulas have.
    Herbrand {
        count: u64,
        sequent: Sequent,
    },
    /// A proof that takes the place of the given one, and whether it is shorter; else it is that one.
    Introduced {
        proof: ProofRef,
        shorter: bool,
    },
    /// A symbol with the formula that it stands for, closed over its arguments.
    Definition(Sym, Formula),
    /// The atoms that are true in a model of clauses.
    Model(Formulas),
    /// A refutation of ground clauses, which stands for its proof.
    Refutation(Refutation),
    /// A refutation of clauses, which stands for its proof.
    Derivation(Refutation),
    /// Clauses that rounds of resolution end with.
    Saturated(ClauseList),
}

/// Why a field is given nothing that the operation could take.
#[derive(Drop)]
pub enum Absent {
    /// It is refused.
    Refused(Refusal),
    /// It is refused by a refusal that shows a name, and there is no memory for the name.
    Unnamed,
    /// The job that it names reported want of memory.
    Wanting,
    /// The job that it names holds a refutation, and there was no memory for the proof that it stands for.
    Unmade,
}

/// What running an operation came to.
#[derive(Drop)]
pub enum Ran {
    /// It is refused.
    Refused(Refusal),
    /// It is refused by a refusal that shows a name, and there is no memory for the name.
    Unnamed,
    /// It has no product, as work has found.
    Failed(Failure),
    /// Memory ran out, or a job that it names reported want of memory.
    Lacking,
    /// It is done.
    Done(Made),
}

impl From<Absent> for Ran {
    ghost use Rattle.std.specs.Prelude.{◌≡◌};
    ghost use Rattle.operations.specs.Means.{without};

    ghost from_gives = { λ absent ran. ran ≡ without absent };

    fn from(absent: Absent) -> Ran {
        match absent {
            Absent::Refused(refusal) => Ran::Refused(refusal),
            Absent::Unnamed => Ran::Unnamed,
            Absent::Wanting | Absent::Unmade => Ran::Lacking,
        }
    }
}
