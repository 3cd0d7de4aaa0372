//! Reading of whole problems.
ghost use Rattle.std.specs.Prelude.{◌≡◌, ◌<◌, ◌^◌, ℕ, List, [], length, Ok, Err, IfOk, OnOk};
ghost use Rattle.std.specs.List.{All};
ghost use Rattle.tptp_problem.specs.Closures.{AreFormedEntries};
ghost use Rattle.tptp_problem.specs.ProblemClauses.{IsReadEntry, IsReadProblem};
ghost use Rattle.tptp_problem.specs.Problems.{IsProblemText, IsProblemFault, GivesProblem, IfFault};
ghost use Rattle.tptp_problem.specs.declared.errors.ProblemKind.{ProblemKind as Kind};
ghost use Rattle.tptp_problem.specs.declared.problems.Problem.{Problem as ProblemMeaning};
ghost use Rattle.tptp_problem.specs.Readers.{Gives};
ghost use Rattle.tptp_problem.specs.EntryReader.{counted, entries_from};
ghost use Rattle.tptp_problem.specs.Reading.{problem_reading};

use crate::entries::read_entry;
use crate::errors::{ProblemError, ReadError};
use crate::problems::{Entries, Entry, Problem, Role};
use crate::sequents::sequent_of;
use crate::tokens::next_token;
use fol::Text;
use std::alloc::{AllocError, Global};
use std::collections::BTreeSet;
use tptp_tokens::Pool;

/// The problem that the text is: entries with white space and comments around their tokens. A text has at most 1,000 conjectures, and
/// each formula at most 200 levels of open parentheses, negations and quantifiers, its entry's own parenthesis included, and at most
/// 1,000 members in a chain and variables in a quantifier.
pub fn read_problem(alloc: Global, text: &[u8]) -> Result<Problem, ProblemError>
    requires { length text.now < 2 ^ 32 }
    // It is the one reading of the whole text.
    ensures text { IfOk result (λ p. IsProblemText text.now p) }
    // A text that has a reading is read, unless memory runs out.
    ensures only { (p : ProblemMeaning) → IsProblemText text.now p → GivesProblem result (Ok p) }
    // A fault is the first one of the text.
    ensures fault { IfFault result (λ at kind. IsProblemFault text.now at kind) }
    // A text that has a first fault is refused with it, unless memory runs out.
    ensures first { (at : ℕ) (kind : Kind) → IsProblemFault text.now at kind → GivesProblem result (Err (at, kind)) }
    // A text has at most one reading and at most one first fault.
    ensures one { (p q : ProblemMeaning) → IsProblemText text.now p → IsProblemText text.now q → p ≡ q }
    ensures one_fault { (at other : ℕ) (kind otherwise : Kind) → IsProblemFault text.now at kind → IsProblemFault text.now other otherwise → (at ≡ other) × (kind ≡ otherwise) }
    // It answers the reading of the text, unless memory runs out.
    ensures reading { GivesProblem result (problem_reading text.now) }
    // The formula of each entry is well formed.
    ensures formed { IfOk result (λ p. AreFormedEntries p.entries) }
    // The formula of each `cnf` entry is a disjunction of literals besides.
    ensures read { IfOk result (λ p. IsReadProblem p) }
{
    problem_of(alloc, text)
}

// The problem that the text is, by its entries.
#[tactic(auto, unfolding(crate::specs::Reading::problem_reading))]
fn problem_of(alloc: Global, text: &[u8]) -> Result<Problem, ProblemError>
    ensures value { GivesProblem result (problem_reading text.now) }
    ensures formed { IfOk result (λ p. AreFormedEntries p.entries) }
    ensures read { IfOk result (λ p. All IsReadEntry p.entries) }
{
    match formed_entries(alloc, text) {
        Ok(entries) => match sequent_of(alloc, &entries) {
            Ok(sequent) => match Entries::from_vec(alloc, entries) {
                Ok(entries) => Ok(Problem { entries, sequent }),
                Err(_) => Err(ProblemError::Memory),
            },
            Err(_) => Err(ProblemError::Memory),
        },
        Err(ReadError::Memory) => Err(ProblemError::Memory),
        Err(ReadError::Fault(fault)) => Err(ProblemError::At {
            at: text.len().saturating_sub(fault.left) as u64,
            kind: fault.kind,
        }),
    }
}

// Counts the entry where it is a conjecture.
fn count_entry(conjectures: &mut usize, entry: &Entry) -> Result<(), AllocError>
    ensures { OnOk result (conjectures.new ≡ counted entry.now.role conjectures.old) }
{
    if entry.role == Role::Conjecture {
        *conjectures = conjectures.checked_add(1).ok_or(AllocError)?;
    }
    Ok(())
}

// The entries that the text is, which are well formed.
fn formed_entries(alloc: Global, text: &[u8]) -> Result<Vec<Entry>, ReadError>
    ensures value { Gives (λ v. v.items) result (entries_from [] text.now) }
    ensures formed { IfOk result (λ v. AreFormedEntries v.items) }
    ensures read { IfOk result (λ v. All IsReadEntry v.items) }
{
    read_entries(alloc, text)
}

// The entries that the text is.
#[tactic(auto, using(crate::proofs::EntryReading::entry_stops))]
fn read_entries(alloc: Global, text: &[u8]) -> Result<Vec<Entry>, ReadError>
    ensures { Gives (λ v. v.items) result (entries_from [] text.now) }
{
    let mut entries: Vec<Entry> = Vec::new(alloc);
    let mut names: BTreeSet<Text> = BTreeSet::new(alloc);
    let mut conjectures = 0;
    let mut pool = Pool::for_text(alloc, text.len())?;
    let mut rest = text;
    loop {
        let (_, front) = next_token(alloc, &mut pool, rest)?;
        if front.is_empty() {
            return Ok(entries);
        }
        let (entry, behind) = read_entry(alloc, &mut pool, &mut names, conjectures, front)?;
        count_entry(&mut conjectures, &entry)?;
        entries.push(entry)?;
        rest = behind;
    }
}
