//! Marks of atoms: bits that each instance of an atom has as well, so that a clause subsumes only such clauses as have its marks.
ghost use Rattle.std.specs.Prelude.{◌≡◌, IfOk};
ghost use Rattle.res_prover.specs.Marks.{bit_of, term_marks as marks_of_term, terms_marks as marks_of_terms, whole_mark as mark_of_whole, predicate_mark as mark_of_predicate, atom_marks as marks_of_atom, side_marks as marks_of_side, is_marked_within, within_some, each_within_some};

use fol::{Formula, FormulaNode, Term, TermNode, Terms, TermsLink, mix};
use std::alloc::{AllocError, Global};
use std::marker::Model;

/// How many function symbols may stand around one that has a mark. Those further inside have none: a number of 64 bits tells little of many.
const DEPTH: u32 = 4;

/// The bit that a fingerprint is for.
#[tactic(auto, unfolding(crate::specs::Marks::bit_of))]
pub(crate) fn bit(fingerprint: u64) -> u64
    ensures { result ≡ bit_of fingerprint }
{
    1 << (fingerprint % 64)
}

// The marks of the function symbols of a term, down to so many symbols below its first one.
#[cycle(term_marks)]
fn term_marks(depth: u32, fingerprint: u64, term: &Term) -> u64
    ensures { result ≡ marks_of_term depth fingerprint term.now }
{
    match term.node() {
        TermNode::Free(_) | TermNode::Bound(_) => 0,
        TermNode::App(symbol, terms) => {
            let place = mix(fingerprint, symbol.fingerprint());
            if depth == 0 {
                bit(place)
            } else {
                bit(place) | terms_marks(depth - 1, place, terms)
            }
        }
    }
}

// Those of arguments.
#[cycle(term_marks)]
fn terms_marks(depth: u32, fingerprint: u64, terms: &Terms) -> u64
    ensures { result ≡ marks_of_terms depth fingerprint terms.now }
{
    match terms.link() {
        TermsLink::Nil => 0,
        TermsLink::Cons(term, rest) => {
            term_marks(depth, fingerprint, term) | terms_marks(depth, mix(fingerprint, 0), rest)
        }
    }
}

// The mark of the atom as a whole, where it has no variable.
fn whole_mark(atom: &Formula) -> u64
    ensures { result ≡ mark_of_whole atom.now }
{
    if atom.has_free() {
        0
    } else {
        bit(atom.fingerprint())
    }
}

fn atom_marks(atom: &Formula) -> u64
    ensures { result ≡ marks_of_atom atom.now }
{
    match atom.node() {
        FormulaNode::Atom(predicate, terms) => {
            let fingerprint = predicate.fingerprint();
            bit(fingerprint) | (terms_marks(DEPTH, fingerprint, terms) | whole_mark(atom))
        }
        FormulaNode::Top
        | FormulaNode::Bot
        | FormulaNode::Not(_)
        | FormulaNode::And(..)
        | FormulaNode::Or(..)
        | FormulaNode::Imp(..)
        | FormulaNode::All(_)
        | FormulaNode::Ex(_) => 0,
    }
}

// The fingerprint of the predicate symbol.
fn predicate_mark(atom: &Formula) -> u64
    ensures { result ≡ mark_of_predicate atom.now }
{
    match atom.node() {
        FormulaNode::Atom(predicate, _) => predicate.fingerprint(),
        FormulaNode::Top
        | FormulaNode::Bot
        | FormulaNode::Not(_)
        | FormulaNode::And(..)
        | FormulaNode::Or(..)
        | FormulaNode::Imp(..)
        | FormulaNode::All(_)
        | FormulaNode::Ex(_) => 0,
    }
}

/// An atom with its marks.
#[derive(Drop)]
pub(crate) struct MarkedAtom {
    atom: Formula,
    predicate: u64,
    marks: u64,
}

impl Model for MarkedAtom {
    ghost use Rattle.std.specs.Prelude.{◌≡◌};
    ghost use Rattle.fol.specs.Syntax.{Formula as Meaning};
    ghost use Rattle.fol.specs.Codes.{coded_formula};
    ghost use Rattle.res_prover.specs.Marks.{predicate_mark, atom_marks};

    ghost Value = { Meaning };

    ghost coded = { coded_formula };

    ghost view = { λ m. m.atom };

    ghost invariant = { λ m. (m.predicate ≡ predicate_mark m.atom) × (m.marks ≡ atom_marks m.atom) };
}

impl MarkedAtom {
    pub fn of(atom: &Formula) -> Result<MarkedAtom, AllocError>
        ensures { IfOk result (λ m. m ≡ atom.now) }
    {
        let predicate = predicate_mark(atom);
        let marks = atom_marks(atom);
        let atom = atom.copy()?;
        Ok(MarkedAtom {
            atom,
            predicate,
            marks,
        })
    }

    pub fn atom(&self) -> &Formula
        ensures { result.now ≡ self.now }
    {
        &self.atom
    }

    pub fn marks(&self) -> u64
        ensures { result ≡ marks_of_atom self.now }
    {
        self.marks
    }

    /// Whether the other atom has the predicate symbol and all marks of this one. Else it is no image of it.
    pub fn is_within(&self, other: &MarkedAtom) -> bool
        ensures { result ≡ is_marked_within self.now other.now }
    {
        self.predicate == other.predicate && self.marks | other.marks == other.marks
    }
}

/// The atoms of a side, each with its marks.
pub(crate) fn with_marks(alloc: Global, atoms: &[Formula]) -> Result<Vec<MarkedAtom>, AllocError>
    ensures { IfOk result (λ v. v.items ≡ atoms.now) }
{
    let mut each = Vec::with_capacity(alloc, atoms.len())?;
    for place in 0..atoms.len() {
        let atom = MarkedAtom::of(&atoms[place])?;
        each.push(atom)?;
    }
    Ok(each)
}

/// All marks of some atoms.
pub(crate) fn side_marks(atoms: &[MarkedAtom]) -> u64
    ensures { result ≡ marks_of_side atoms.now }
{
    let [first, rest @ ..] = atoms else {
        return 0;
    };
    first.marks() | side_marks(rest)
}

// Whether the marks are within those of some other atom.
fn is_within_some(atom: &MarkedAtom, others: &[MarkedAtom]) -> bool
    ensures { result ≡ within_some others.now atom.now }
{
    others.iter().any(|other| atom.is_within(other))
}

/// Whether those of each atom are within those of some other one.
pub(crate) fn are_within_some(each: &[MarkedAtom], others: &[MarkedAtom]) -> bool
    ensures { result ≡ each_within_some others.now each.now }
{
    each.iter().all(|atom| is_within_some(atom, others))
}
