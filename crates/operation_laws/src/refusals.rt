//! Why operations are refused, and why they fail.
use exp_tree::{NodeCause, RootCause};
use job_words::{FormedFormula, FormedVar, FormedVars, Utf8Text};
use lk_rules::{Formulas, Side};
use reply_lines::{RefutationShown, StepShown};

/// Why an operation is refused before any work.
#[derive(Drop)]
pub enum Refusal {
    /// No earlier job has the name that is written in a field.
    UnknownName(Utf8Text),
    /// The job that is named in a field holds another kind of value.
    Kind(Utf8Text),
    /// The proof has no step.
    Empty,
    /// The first faulty step of a proof, counted from 0, and its first fault.
    Step { step: u64, cause: StepShown },
}

/// Why an operation has no product, where that was found by work.
#[derive(Drop)]
pub enum Failure {
    /// After as much work as the budget allows there is more to do.
    Budget,
    /// A list of steps is refused, as was found when definitions had been put into it.
    Unproved(Refusal),
    /// The first faulty step of a refutation, counted from 0, and its fault.
    Refutation { step: u64, cause: RefutationShown },
    /// The first formula of a sequent that has a quantifier, the left side before the right one.
    Quantified { formula: FormedFormula, side: Side },
    /// The sequent is false where just these atoms are true.
    Falsified(Formulas),
    /// The first faulty node of a flat list, counted from 0, and its first fault.
    Node { node: u64, cause: NodeCause },
    /// The first faulty root of a flat list, and its first fault. Left roots are counted before right ones, from 0.
    Root { root: u64, cause: RootCause },
    /// The least variable of two strong quantifiers of expansion trees.
    EigenTwice(FormedVar),
    /// The least variable of a strong quantifier of expansion trees that is free in one of their formulas.
    EigenFree(FormedVar),
    /// Variables of strong quantifiers each of which has to be there before the next, and the last before the first.
    Cycle(FormedVars),
    /// The first cut of a proof that may have none, by its place among the canonical steps, counted from 0.
    Cut(u64),
    /// The first formula of a sequent that has a predicate symbol with a definition, the left side before the right one.
    Defined { formula: FormedFormula, side: Side },
    /// The least formula that stands on the left either of a sequent or of its two parts, but not of both; else the least on the right.
    Partition { formula: FormedFormula, side: Side },
    /// The first formula of a sequent that isn't weak quantifiers over a formula without quantifiers and without predicate symbols that have
    /// a definition, the left side before the right one.
    NotPrenex { formula: FormedFormula, side: Side },
    /// The quantified formulas of a sequent have more tuples than candidates for a cut are looked for: this many.
    TooMany(u64),
    /// The definition of a job, whose name is written so in a field, is of the symbol of an earlier one in the field.
    DefTwice(Utf8Text),
    /// The least variable that is free in the formula of a definition and isn't one of its arguments.
    DefFree(FormedVar),
    /// With all defined symbols unfolded the formula of a definition has more nodes than it may have.
    DefLarge,
    /// The clause of this number, among those of a problem, has a variable.
    NotGround(u64),
    /// The rounds of resolution end before there is a refutation, and a further round would add clauses.
    Rounds,
}
