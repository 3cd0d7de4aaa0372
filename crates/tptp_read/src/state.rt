//! How far a text has been read.
use crate::arguments::Arguments;
use crate::variables::Variables;
use fol::{Formula, Term, Text};
use std::collections::VecDeque;
use tptp_tokens::{BinaryOperator, ChainOperator, Quantifier};

/// The limits of a text.
#[derive(Clone, Copy)]
pub struct Limits {
    /// How many parentheses, negations and quantifiers may be open at once.
    pub levels: usize,
    /// How many operators a chain may have.
    pub operators: usize,
    /// How many variables a quantifier may have.
    pub variables: usize,
}

/// The limits of a formula or a term that stands by itself: 200 levels, and 1,000 members or variables.
pub const LIMITS: Limits = Limits {
    levels: 200,
    operators: 999,
    variables: 1000,
};

/// What a text means.
#[derive(Drop)]
pub enum Outcome {
    Formula(Formula),
    Term(Term),
}

/// What stands in a formula before the unit that is read.
#[derive(Drop)]
pub enum Part {
    First,
    /// The members of a chain, and how many operators stand behind them.
    Chained(ChainOperator, Formula, usize),
    /// The first part of a connective that joins two.
    Joined(BinaryOperator, Formula),
}

/// What isn't complete around a unit.
#[derive(Drop)]
pub enum Frame {
    /// An open parenthesis, and what stands before it in the formula around it.
    Group(Part),
    Negated,
    Quantified(Quantifier, Variables),
}

/// A symbol whose arguments are read: its name and the arguments so far, the last one first.
#[derive(Drop)]
pub struct Call {
    pub name: Text,
    pub terms: Arguments,
}

/// Where a term stands that is in no other term.
#[derive(Drop)]
pub enum Side {
    /// At the front of a unit: an atom, or the left side of an equation.
    Lead,
    /// At the right of an equation with this left side, or of its negation where the first is false.
    Right(bool, Term),
    /// It is the whole text.
    Whole,
}

/// What has just been read, or is wanted next.
#[derive(Drop)]
pub enum Mode {
    WantUnit,
    AfterUnit(Formula),
    WantTerm,
    /// A name, which is a constant or has arguments.
    AfterName(Text),
    AfterTerm(Term),
    /// The `[` of a quantifier.
    WantSquare(Quantifier),
    WantVariable(Quantifier, Variables),
    AfterVariable(Quantifier, Variables),
    WantColon(Quantifier, Variables),
}

/// How far a text has been read.
#[derive(Drop)]
pub struct State {
    pub mode: Mode,
    pub side: Side,
    /// The symbols whose arguments are read, the innermost first.
    pub calls: VecDeque<Call>,
    pub part: Part,
    /// What isn't complete, the innermost first.
    pub frames: VecDeque<Frame>,
}
