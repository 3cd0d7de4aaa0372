//! Refutations of clauses. The resolutions of a search are a plan: each one that the empty clause needs is made once more, with the clauses
//! themselves, and looked at.
ghost use Rattle.std.specs.Prelude.{◌≡◌, ◌<◌, List, length, Ok, IfOk, OnOk};
ghost use Rattle.lk_rules.specs.declared.sequent.Sequent.{Sequent as Disjunction};
ghost use Rattle.ground_laws.specs.declared.step.SatStep.{SatStep as Inference};
ghost use Rattle.ground_laws.specs.Steps.{derives, IsRefutation};
ghost use Rattle.sat_search.specs.Grounds.{clauses_of};
ghost use Rattle.sat_search.specs.Derived.{conclusions, IsSound, IsDerived, AreDerived, Derives};

use crate::answer::SatSteps;
use crate::ground::Ground;
use crate::numbering::Numbering;
use crate::plan::{Plan, Resolution, Uses};
use fol::Formula;
use ground_laws::SatStep;
use lk_rules::Sequent;
use refutations::resolvent;
use std::alloc::{AllocError, Global};

/// A clause with the number of the step that derives it.
pub(crate) struct Derived {
    step: u64,
    clause: Sequent,
}

impl Drop for Derived {
    fn drop(self) {
        let Derived { step: _, clause } = self;
        drop(clause);
    }
}

// One more step, which derives this clause.
fn push(
    clauses: &[Ground],
    steps: &mut Vec<SatStep>,
    step: SatStep,
    clause: Sequent,
) -> Result<Derived, AllocError>
    requires sound { IsSound (clauses_of clauses.now) steps.old.items }
    requires derives { derives (clauses_of clauses.now) (conclusions (clauses_of clauses.now) steps.old.items) step ≡ Ok clause }
    ensures { IfOk result (Derives (clauses_of clauses.now) steps.old.items steps.new.items) }
{
    let _clauses = clauses;
    let number = steps.len() as u64;
    steps.push(step)?;
    Ok(Derived {
        step: number,
        clause,
    })
}

// The input clause of this number.
fn input(clauses: &[Ground], steps: &mut Vec<SatStep>, number: usize) -> Result<Derived, AllocError>
    requires sound { IsSound (clauses_of clauses.now) steps.old.items }
    requires within { number < length clauses.now }
    ensures { IfOk result (Derives (clauses_of clauses.now) steps.old.items steps.new.items) }
{
    let clause = Sequent {
        left: clauses[number].negative.copy()?,
        right: clauses[number].positive.copy()?,
    };
    push(clauses, steps, SatStep::Input(number as u64), clause)
}

// The resolvent of two clauses, where they have one on this atom.
fn resolve(
    alloc: Global,
    clauses: &[Ground],
    steps: &mut Vec<SatStep>,
    positive: &Derived,
    negative: &Derived,
    atom: &Formula,
) -> Result<Derived, AllocError>
    requires sound { IsSound (clauses_of clauses.now) steps.old.items }
    requires positive { IsDerived (clauses_of clauses.now) steps.old.items positive.now }
    requires negative { IsDerived (clauses_of clauses.now) steps.old.items negative.now }
    ensures { IfOk result (Derives (clauses_of clauses.now) steps.old.items steps.new.items) }
{
    if !positive.clause.right.has(atom) || !negative.clause.left.has(atom) {
        return Err(AllocError);
    }
    let clause = resolvent(alloc, &positive.clause, &negative.clause, atom)?;
    let step = SatStep::Resolve {
        positive: positive.step,
        negative: negative.step,
        atom: atom.copy()?,
    };
    push(clauses, steps, step, clause)
}

// The clause that was derived with a number of the plan.
fn earlier(table: &[Option<Derived>], clause: u32) -> Result<&Derived, AllocError>
    ensures { (cs : List Disjunction) (steps : List Inference) → AreDerived cs steps table.now → IfOk result (λ d. IsDerived cs steps d.now) }
{
    match table.get(clause as usize) {
        Some(Some(earlier)) => Ok(earlier),
        _ => Err(AllocError),
    }
}

// The clause that a resolution derives, from those of smaller numbers.
fn derive(
    alloc: Global,
    clauses: &[Ground],
    numbering: &Numbering,
    table: &[Option<Derived>],
    steps: &mut Vec<SatStep>,
    resolution: Resolution,
) -> Result<Derived, AllocError>
    requires sound { IsSound (clauses_of clauses.now) steps.old.items }
    requires derived { AreDerived (clauses_of clauses.now) steps.old.items table.now }
    ensures { IfOk result (Derives (clauses_of clauses.now) steps.old.items steps.new.items) }
{
    let positive = earlier(table, resolution.positive)?;
    let negative = earlier(table, resolution.negative)?;
    let Some(atom) = numbering.atom(resolution.atom) else {
        return Err(AllocError);
    };
    resolve(alloc, clauses, steps, positive, negative, atom)
}

// The next clause after those of a table, by its number in the plan.
fn next(
    alloc: Global,
    clauses: &[Ground],
    numbering: &Numbering,
    plan: &Plan,
    table: &[Option<Derived>],
    steps: &mut Vec<SatStep>,
) -> Result<Derived, AllocError>
    requires sound { IsSound (clauses_of clauses.now) steps.old.items }
    requires derived { AreDerived (clauses_of clauses.now) steps.old.items table.now }
    ensures { IfOk result (Derives (clauses_of clauses.now) steps.old.items steps.new.items) }
{
    let number = table.len();
    if number < clauses.len() {
        return input(clauses, steps, number);
    }
    match plan.get(number) {
        Some(resolution) => derive(alloc, clauses, numbering, table, steps, resolution),
        None => Err(AllocError),
    }
}

// Adds the next clause to a table, or that it isn't needed.
fn push_next(
    alloc: Global,
    clauses: &[Ground],
    numbering: &Numbering,
    plan: &Plan,
    table: &mut Vec<Option<Derived>>,
    steps: &mut Vec<SatStep>,
    is_needed: bool,
) -> Result<(), AllocError>
    requires sound { IsSound (clauses_of clauses.now) steps.old.items }
    requires derived { AreDerived (clauses_of clauses.now) steps.old.items table.old.items }
    ensures sound { OnOk result (IsSound (clauses_of clauses.now) steps.new.items) }
    ensures derived { OnOk result (AreDerived (clauses_of clauses.now) steps.new.items table.new.items) }
{
    if !is_needed {
        table.push(None)?;
        return Ok(());
    }
    let next = next(alloc, clauses, numbering, plan, table, steps)?;
    table.push(Some(next))?;
    Ok(())
}

// Takes a use of a clause away, and the clause where it was the last.
#[tactic(auto, using(crate::proofs::Deriving::released))]
fn release(table: &mut Vec<Option<Derived>>, uses: &mut Uses, clause: u32)
    ensures { (cs : List Disjunction) (steps : List Inference) → AreDerived cs steps table.old.items → AreDerived cs steps table.new.items }
{
    let place = clause as usize;
    if uses.end(clause) && place < table.len() {
        table[place] = None;
    }
}

// Takes the uses away that a resolution made.
fn release_both(table: &mut Vec<Option<Derived>>, uses: &mut Uses, resolution: Resolution)
    ensures { (cs : List Disjunction) (steps : List Inference) → AreDerived cs steps table.old.items → AreDerived cs steps table.new.items }
{
    release(table, uses, resolution.positive);
    release(table, uses, resolution.negative);
}

// The steps up to the one whose clause is empty.
fn ended(
    alloc: Global,
    clauses: &[Ground],
    steps: Vec<SatStep>,
    last: &Derived,
) -> Result<SatSteps, AllocError>
    requires sound { IsSound (clauses_of clauses.now) steps.items }
    requires derived { IsDerived (clauses_of clauses.now) steps.items last.now }
    ensures { IfOk result (IsRefutation (clauses_of clauses.now)) }
{
    let _clauses = clauses;
    let number = last.step as usize;
    let is_empty = last.clause == Sequent::empty(alloc);
    if number >= steps.len() || !is_empty {
        return Err(AllocError);
    }
    let mut steps = steps;
    steps.truncate(number + 1);
    Ok(SatSteps::from_vec(steps))
}

/// The refutation that a search found, without the steps that it doesn't need. Where what it found is none, that is refused as want of memory.
pub(crate) fn refutation(
    alloc: Global,
    clauses: &[Ground],
    numbering: &Numbering,
    plan: &Plan,
) -> Result<SatSteps, AllocError>
    ensures { IfOk result (IsRefutation (clauses_of clauses.now)) }
{
    let mut uses = plan.uses(alloc)?;
    let mut steps = Vec::with_capacity(alloc, uses.needed())?;
    let mut table = Vec::with_capacity(alloc, uses.len())?;
    for number in 0..uses.len() {
        let is_needed = uses.is_left(number);
        push_next(
            alloc, clauses, numbering, plan, &mut table, &mut steps, is_needed,
        )?;
        if is_needed && let Some(resolution) = plan.get(number) {
            release_both(&mut table, &mut uses, resolution);
        }
    }
    match table.pop() {
        Some(Some(last)) => ended(alloc, clauses, steps, &last),
        _ => Err(AllocError),
    }
}
