//! The sequent of a problem.
ghost use Rattle.std.specs.Prelude.{◌≡◌, IfOk, IfSome};
ghost use Rattle.std.specs.List.{All};
ghost use Rattle.fol.specs.Formed.{IsFormed};
ghost use Rattle.tptp_problem.specs.Closures.{hypotheses, conjectures, conjunction, problem_sequent, AreFormedEntries};

use crate::closures::closure;
use crate::problems::{Entry, Role};
use fol::Formula;
use lk_rules::{Formulas, Sequent};
use std::alloc::{AllocError, Global};

// The closures of the entries that are no conjecture, in order.
fn hypotheses_of(alloc: Global, entries: &[Entry]) -> Result<Vec<Formula>, AllocError>
    requires { AreFormedEntries entries.now }
    ensures closures { IfOk result (λ list. list.items ≡ hypotheses entries.now) }
    ensures formed { IfOk result (λ list. All IsFormed list.items) }
{
    let mut list = Vec::new(alloc);
    for entry in entries {
        if entry.role != Role::Conjecture {
            list.push(closure(alloc, &entry.formula)?)?;
        }
    }
    Ok(list)
}

// The conjunction of the conjectures' closures, where there are any.
fn goal_of(alloc: Global, entries: &[Entry]) -> Result<Option<Formula>, AllocError>
    requires { AreFormedEntries entries.now }
    ensures goal { IfOk result (λ goal. goal ≡ conjunction (conjectures entries.now)) }
    ensures formed { IfOk result (λ goal. IfSome goal IsFormed) }
{
    let mut goal: Option<Formula> = None;
    for entry in entries {
        if entry.role == Role::Conjecture {
            let closed = closure(alloc, &entry.formula)?;
            goal = match goal {
                Some(before) => Some(Formula::and(alloc, before, closed)?),
                None => Some(closed),
            };
        }
    }
    Ok(goal)
}

/// The sequent of a problem with these entries.
pub fn sequent_of(alloc: Global, entries: &[Entry]) -> Result<Sequent, AllocError>
    requires { AreFormedEntries entries.now }
    ensures { IfOk result (λ s. s ≡ problem_sequent entries.now) }
{
    let left = Formulas::from_vec(alloc, hypotheses_of(alloc, entries)?)?;
    let mut goals = Vec::new(alloc);
    if let Some(goal) = goal_of(alloc, entries)? {
        goals.push(goal)?;
    }
    let right = Formulas::from_vec(alloc, goals)?;
    Ok(Sequent { left, right })
}
