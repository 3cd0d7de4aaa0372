//! What is replied to a job.
ghost use Rattle.std.specs.Prelude.{◌≡◌};

use exp_tree::{FlatExp, NodeCause, RootCause};
use job_words::{
    ClauseList, FormedFormula, FormedVar, FormedVars, JobCause, Name, RefutationSteps, Steps,
    SymbolName, Utf8Text,
};
use lk_rules::{Formulas, RuleFault, Sequent, Side};

/// A proof in short: how many cuts and quantifier rules it has, and its end sequent.
#[derive(Drop)]
pub struct Summary {
    pub cuts: u64,
    pub end: Sequent,
    pub quants: u64,
}

/// Expansion trees in short: how many instances they have at weak quantifiers and how many strong quantifiers, and the sequent of their
/// formulas.
#[derive(Drop)]
pub struct ExpSummary {
    pub end: Sequent,
    pub instances: u64,
    pub strong: u64,
}

/// What is wrong with a step.
#[derive(Clone, Copy, PartialEq, Eq)]
pub enum StepShown {
    /// A premise is not an earlier step.
    Reference,
    /// The step isn't an instance of its rule.
    Rule(RuleFault),
}

/// What is wrong with a step of a refutation.
#[derive(Clone, Copy, PartialEq, Eq)]
pub enum RefutationShown {
    /// It names no clause, or no earlier step.
    Reference,
    /// The atom isn't among the positive literals of the one clause, or not among the negative ones of the other.
    AtomMissing,
    /// It is the last step, and its clause isn't empty; or there is no step.
    NotEmpty,
}

/// What came of a job.
pub enum Outcome {
    /// The job is a proof.
    Proof(Summary),
    /// The job is a proof, after this many reductions.
    Reduced(Summary, u64),
    /// The job is a problem: how many entries it has, and its sequent.
    Entries {
        entries: u64,
        sequent: Sequent,
    },
    /// Whether the proof proves the problem.
    Proves(bool),
    /// The steps of a proof.
    Steps(Steps),
    /// How many cuts, nodes that differ, quantifier rules and nodes in all the tree of a proof has.
    Measure {
        cuts: u64,
        nodes: u64,
        quants: u64,
        size: u64,
    },
    /// The job is an expansion proof.
    Expansion(ExpSummary),
    /// The trees of an expansion proof as a flat list.
    Nodes(FlatExp),
    /// The job is a pair of proofs: of the first part with the interpolant on the right, and of the second part with it on the left.
    Interpolant {
        first: Summary,
        formula: FormedFormula,
        second: Summary,
    },
    /// The Herbrand sequent of a proof, and how many tuples its quantified formulas have.
    Herbrand {
        count: u64,
        sequent: Sequent,
    },
    /// The job is a proof with one cut, and whether it is shorter than the given one; else it is that one.
    Introduced {
        summary: Summary,
        shorter: bool,
    },
    /// The job is a definition: a predicate symbol's name, how many arguments it has, and the formula that it stands for, under a universal
    /// quantifier for each of these.
    Definition {
        symbol: SymbolName,
        arity: u64,
        body: FormedFormula,
    },
    /// The ground clauses are true together, where just these atoms are.
    Satisfiable(Formulas),
    /// The ground clauses are never true together: the steps of a refutation.
    Unsatisfiable(RefutationSteps),
    /// No round adds a clause: the clauses that are kept, none of which is empty.
    Saturated(ClauseList),
    /// The rounds find the empty clause: the steps of a refutation.
    Refuted(RefutationSteps),
    /// The line has more bytes than a job may have.
    LineTooLong,
    /// The line isn't a job.
    Reading(JobCause),
    /// An earlier line has the job's name.
    NameTaken,
    /// No earlier job has the name that is written in a field.
    UnknownName(Utf8Text),
    /// The job named in a field holds another kind of value.
    Kind(Utf8Text),
    /// The proof has no step.
    Empty,
    /// The first faulty step of the job, counted from 0, and its first fault.
    Step {
        step: u64,
        cause: StepShown,
    },
    /// The first faulty step of the refutation, counted from 0, and its fault.
    Refutation {
        step: u64,
        cause: RefutationShown,
    },
    /// The first formula of a sequent that has a quantifier, where none may have one, and its side.
    Quantified {
        formula: FormedFormula,
        side: Side,
    },
    /// The sequent is no tautology: it is false where just these atoms are true.
    Falsified(Formulas),
    /// The first faulty node of a flat list, counted from 0, and its first fault.
    Node {
        node: u64,
        cause: NodeCause,
    },
    /// The first faulty root of a flat list, and its first fault. Left roots are counted before right ones, from 0.
    Root {
        root: u64,
        cause: RootCause,
    },
    /// The least variable that two strong quantifiers of expansion trees have.
    EigenTwice(FormedVar),
    /// The least variable of a strong quantifier of expansion trees that is free in one of their formulas.
    EigenFree(FormedVar),
    /// Variables of strong quantifiers each of which has to be there before the next, and the last before the first.
    Cycle(FormedVars),
    /// The first cut of a proof that may have none, by its place among the canonical steps, counted from 0.
    Cut(u64),
    /// The first formula of a sequent that has a predicate symbol with a definition, where none may have one, and its side.
    Defined {
        formula: FormedFormula,
        side: Side,
    },
    /// The least formula that stands on this side either of a sequent or of its two parts, but not of both.
    Partition {
        formula: FormedFormula,
        side: Side,
    },
    /// The first formula of a sequent that isn't weak quantifiers over a formula without quantifiers and without predicate symbols that have
    /// a definition, where each has to be, and its side.
    NotPrenex {
        formula: FormedFormula,
        side: Side,
    },
    /// The quantified formulas have more tuples than candidates for a cut are looked for: this many.
    TooMany(u64),
    /// The definition of this job, by its name as it is written in a field, is of a symbol that an earlier one in the field is of.
    DefTwice(Utf8Text),
    /// The least variable that is free in the formula of a definition and isn't one of its arguments.
    DefFree(FormedVar),
    /// With all defined symbols unfolded the formula of a definition has more nodes than it may have.
    DefLarge,
    /// The first clause with a variable, counted from 0, where no clause may have one.
    NotGround(u64),
    /// The rounds end before a refutation is found or no round adds a clause.
    Rounds,
    /// The work takes more than the budget allows.
    Budget,
    /// Memory ran out while the job was run.
    Memory,
}

impl Drop for Outcome {
    fn drop(self) {
        match self {
            Outcome::Proof(summary) | Outcome::Reduced(summary, _) => drop(summary),
            Outcome::Introduced {
                summary,
                shorter: _,
            } => drop(summary),
            Outcome::Entries {
                entries: _,
                sequent,
            } => drop(sequent),
            Outcome::Herbrand { count: _, sequent } => drop(sequent),
            Outcome::Steps(steps) => drop(steps),
            Outcome::Expansion(summary) => drop(summary),
            Outcome::Nodes(flat) => drop(flat),
            Outcome::Interpolant {
                first,
                formula,
                second,
            } => {
                drop(first);
                drop(formula);
                drop(second);
            }
            Outcome::Quantified { formula, side: _ }
            | Outcome::Defined { formula, side: _ }
            | Outcome::Partition { formula, side: _ }
            | Outcome::NotPrenex { formula, side: _ } => drop(formula),
            Outcome::Definition {
                symbol,
                arity: _,
                body,
            } => {
                drop(symbol);
                drop(body);
            }
            Outcome::Falsified(atoms) | Outcome::Satisfiable(atoms) => drop(atoms),
            Outcome::Unsatisfiable(steps) | Outcome::Refuted(steps) => drop(steps),
            Outcome::Saturated(clauses) => drop(clauses),
            Outcome::EigenTwice(var) | Outcome::EigenFree(var) | Outcome::DefFree(var) => drop(var),
            Outcome::Cycle(vars) => drop(vars),
            Outcome::Reading(cause) => drop(cause),
            Outcome::UnknownName(name) | Outcome::Kind(name) | Outcome::DefTwice(name) => drop(
                name,
            ),
            Outcome::Proves(_)
            | Outcome::Measure {
                cuts: _,
                nodes: _,
                quants: _,
                size: _,
            }
            | Outcome::Step { step: _, cause: _ }
            | Outcome::Refutation { step: _, cause: _ }
            | Outcome::Node { node: _, cause: _ }
            | Outcome::Root { root: _, cause: _ }
            | Outcome::Cut(_)
            | Outcome::TooMany(_)
            | Outcome::NotGround(_)
            | Outcome::LineTooLong
            | Outcome::NameTaken
            | Outcome::Empty
            | Outcome::DefLarge
            | Outcome::Rounds
            | Outcome::Budget
            | Outcome::Memory => {}
        }
    }
}

impl Outcome {
    ghost use Rattle.reply_lines.specs.Replies.{is_ok_outcome};

    /// Whether it is no error.
    pub fn is_ok(&self) -> bool
        ensures { result ≡ is_ok_outcome self.now }
    {
        matches!(
            self,
            Outcome::Proof(_)
                | Outcome::Reduced(_, _)
                | Outcome::Entries { .. }
                | Outcome::Proves(_)
                | Outcome::Steps(_)
                | Outcome::Measure { .. }
                | Outcome::Expansion(_)
                | Outcome::Nodes(_)
                | Outcome::Interpolant { .. }
                | Outcome::Herbrand { .. }
                | Outcome::Introduced { .. }
                | Outcome::Definition { .. }
                | Outcome::Satisfiable(_)
                | Outcome::Unsatisfiable(_)
                | Outcome::Saturated(_)
                | Outcome::Refuted(_)
        )
    }
}

/// The reply to the job with the number `n`, counted from 1. The name stands where the line has one.
#[derive(Drop)]
pub struct Reply {
    pub name: Option<Name>,
    pub n: u64,
    pub outcome: Outcome,
}
