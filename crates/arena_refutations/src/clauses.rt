//! The clauses that the steps of a refutation derive, by numbers, without their proofs.
ghost use Rattle.std.specs.Prelude.{◌≡◌, IfOk, List, [], map};
ghost use Rattle.std.specs.List.{All};
ghost use Rattle.lk_rules.specs.declared.sequent.Sequent.{Sequent as Conclusion};
ghost use Rattle.lk_rules.specs.Sequents.{empty, same_sequents};
ghost use Rattle.arena_cells.specs.Standing.{Extends, HasSequent, sequent_at, formula_at, IsSequentAt, IsFormulaAt};
ghost use Rattle.refutations.specs.Clauses.{IsClauseOf, closures};
ghost use Rattle.refutations.specs.Refutations.{Derived, resolvent as resolvent_of, of_resolution, derives, derives_all};
ghost use Rattle.arena_refutations.specs.Importing.{FindsClause, FindsClauses, Refutes};

use crate::faults::{ImportFault, StepFault};
use arena::Arena;
use fol::Formula;
use lk_rules::{Sequent, Side};
use refutations::{Clause, ResCause, ResStep, literals};
use std::alloc::{AllocError, Global};

// What is left of two clauses when the atom goes from the right of the first and from the left of the second.
fn resolvent(
    arena: &mut Arena,
    alloc: Global,
    positive: u32,
    negative: u32,
    atom: u32,
) -> Result<u32, AllocError>
    requires positive { IsSequentAt arena.old positive }
    requires negative { IsSequentAt arena.old negative }
    requires atom { IsFormulaAt arena.old atom }
    ensures resolvent { IfOk result (λ n. HasSequent arena.new n (resolvent_of (sequent_at arena.old positive) (sequent_at arena.old negative) (formula_at arena.old atom))) }
    ensures grown { Extends arena.old arena.new }
{
    let (first_left, first_right) = arena.sides(positive);
    let (second_left, second_right) = arena.sides(negative);
    let kept_right = arena.side_without(alloc, first_right, atom)?;
    let kept_left = arena.side_without(alloc, second_left, atom)?;
    let first = arena.put_sequent(alloc, first_left, kept_right)?;
    let second = arena.put_sequent(alloc, kept_left, second_right)?;
    arena.union_sequents(alloc, first, second)
}

// The resolvent of two clauses, where the atom is on the right of the first and on the left of the second.
fn resolve(
    arena: &mut Arena,
    alloc: Global,
    positive: u32,
    negative: u32,
    atom: &Formula,
) -> Result<u32, StepFault>
    requires positive { IsSequentAt arena.old positive }
    requires negative { IsSequentAt arena.old negative }
    ensures value { (g : Conclusion) (p n : Derived) → p.clause ≡ sequent_at arena.old positive → n.clause ≡ sequent_at arena.old negative → FindsClause arena.new result (of_resolution g p n atom.now) }
    ensures grown { Extends arena.old arena.new }
{
    let atom = arena.import_formula(alloc, atom)?;
    let stands = arena.sequent_has(positive, Side::Right, atom);
    if !stands || !arena.sequent_has(negative, Side::Left, atom) {
        return Err(StepFault::Cause(ResCause::AtomMissing));
    }
    Ok(resolvent(arena, alloc, positive, negative, atom)?)
}

// The clause that a step derives, after steps that derive these.
fn derive_clause(
    arena: &mut Arena,
    alloc: Global,
    clauses: &[Clause],
    derived: &[u32],
    step: &ResStep,
) -> Result<u32, StepFault>
    requires clauses { All IsClauseOf clauses.now }
    requires derived { All (IsSequentAt arena.old) derived.now }
    ensures value { (g : Conclusion) (ds : List Derived) → map (sequent_at arena.old) derived.now ≡ map (λ d. d.clause) ds → FindsClause arena.new result (derives clauses.now g ds step.now) }
    ensures grown { Extends arena.old arena.new }
{
    match step {
        ResStep::Input(number) => {
            let Some(clause) = clauses.get(*number as usize) else {
                return Err(StepFault::Cause(ResCause::Reference));
            };
            let literals = literals(alloc, &clause.matrix)?;
            Ok(arena.import_sequent(alloc, &literals)?)
        }
        ResStep::Subst(number, map) => {
            let Some(from) = derived.get(*number as usize) else {
                return Err(StepFault::Cause(ResCause::Reference));
            };
            let map = arena.import_map(alloc, map)?;
            Ok(arena.image_of_sequent(alloc, map, *from)?)
        }
        ResStep::Resolve {
            positive,
            negative,
            atom,
        } => {
            let Some(first) = derived.get(*positive as usize) else {
                return Err(StepFault::Cause(ResCause::Reference));
            };
            let Some(second) = derived.get(*negative as usize) else {
                return Err(StepFault::Cause(ResCause::Reference));
            };
            resolve(arena, alloc, *first, *second, atom)
        }
    }
}

// The clauses of all steps, or the first faulty step.
fn derive_clauses(
    arena: &mut Arena,
    alloc: Global,
    clauses: &[Clause],
    steps: &[ResStep],
) -> Result<Vec<u32>, ImportFault>
    requires { All IsClauseOf clauses.now }
    ensures value { FindsClauses (λ ns. ns.items) arena.new result (derives_all clauses.now (closures clauses.now) [] 0 steps.now) }
    ensures grown { Extends arena.old arena.new }
{
    let mut derived = Vec::with_capacity(alloc, steps.len())?;
    for (number, step) in steps.iter().enumerate() {
        match derive_clause(arena, alloc, clauses, &derived, step) {
            Ok(clause) => {
                let Ok(()) = derived.push(clause) else {
                    return Err(ImportFault::Memory);
                };
            }
            Err(StepFault::Cause(cause)) => {
                let step = number as u64;
                return Err(ImportFault::Step { step, cause });
            }
            Err(StepFault::Memory) => return Err(ImportFault::Memory),
        }
    }
    Ok(derived)
}

// Whether a clause is empty.
fn is_nothing(arena: &mut Arena, alloc: Global, clause: u32) -> Result<bool, AllocError>
    requires { IsSequentAt arena.old clause }
    ensures value { IfOk result (λ nothing. nothing ≡ same_sequents (sequent_at arena.old clause) empty) }
    ensures grown { Extends arena.old arena.new }
{
    let nothing = arena.import_sequent(alloc, &Sequent::empty(alloc))?;
    arena.known();
    Ok(clause == nothing)
}

// The fault of a last step, of this number, whose clause isn't empty.
fn not_empty(step: u64) -> ImportFault
    ensures { result ≡ ImportFault.Step step ResCause.NotEmpty }
{
    ImportFault::Step {
        step,
        cause: ResCause::NotEmpty,
    }
}

/// The clauses of all steps, of which the last is empty, or the first faulty step.
pub fn clauses_of_refutation(
    arena: &mut Arena,
    alloc: Global,
    clauses: &[Clause],
    steps: &[ResStep],
) -> Result<Vec<u32>, ImportFault>
    requires { All IsClauseOf clauses.now }
    ensures value { Refutes (λ ns. ns.items) arena.new result clauses.now steps.now }
    ensures grown { Extends arena.old arena.new }
{
    let derived = derive_clauses(arena, alloc, clauses, steps)?;
    let Some(last) = derived.last() else {
        return Err(not_empty(0));
    };
    if is_nothing(arena, alloc, *last)? {
        Ok(derived)
    } else {
        Err(not_empty(derived.len() as u64 - 1))
    }
}
