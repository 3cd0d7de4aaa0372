//! Classes of the numbers of terms and lists of terms that equations make equal.
ghost use Rattle.std.specs.Prelude.{◌≡◌, ◌≢◌, ◌<◌, ◌++◌, [], ◌∷◌, ℕ, length, Option, IfOk, OnOk, Err};
ghost use Rattle.fol.specs.declared.symbols.Var.{Var as Variable};
ghost use Rattle.fol.specs.Syntax.{Term as Meaning};
ghost use Rattle.unify_laws.specs.Equations.{Unifies};
ghost use Rattle.arena_cells.specs.Standing.{Extends};
ghost use Rattle.fol_unify.specs.declared.faults.UnifyFault.TheVariants.{NoUnifier};
ghost use Rattle.fol_unify.specs.declared.shapes.Decision.TheVariants.{Clash};
ghost use Rattle.fol_unify.specs.Classes.{next, Leads};
ghost use Rattle.fol_unify.specs.Solving.{IsUnifying, AreSolved};
ghost use Rattle.fol_unify.specs.Shapes.{IsDecision};
ghost use Rattle.fol_unify.specs.Joining.{pairs_of, IsJoined, work_left};

use crate::classes::Classes;
use crate::faults::UnifyFault;
use crate::numbering::number_pairs;
use crate::shapes::{Decision, decide};
use arena_cells::Cells;
use fol::Term;
use std::alloc::{AllocError, Global};

// Does to two roots what is decided.
fn join_roots(
    cells: &Cells,
    classes: &mut Classes,
    decision: Decision,
    first: u32,
    other: u32,
) -> Result<(), UnifyFault>
    requires decision { IsDecision cells.now first other decision }
    requires first { first < length classes.old }
    requires other { other < length classes.old }
    requires apart { first ≢ other }
    requires first_root { next classes.old first ≡ first }
    requires other_root { next classes.old other ≡ other }
    ensures joined { OnOk result (IsJoined cells.now classes.old classes.new first other (pairs_of decision)) }
    ensures none { result ≡ Err NoUnifier → decision ≡ Clash }
{
    let _cells = cells;
    match decision {
        Decision::Clash => return Err(UnifyFault::NoUnifier),
        Decision::FirstUnder => classes.put_under(first, other)?,
        Decision::OtherUnder => classes.put_under(other, first)?,
        Decision::Level | Decision::LevelOne(_) | Decision::LevelTwo(_, _) => {
            classes.join(first, other)?;
        }
    }
    Ok(())
}

// Adds the pairs that are left.
fn push_pairs(work: &mut Vec<(u32, u32)>, decision: Decision) -> Result<(), AllocError>
    ensures { OnOk result (work.new.items ≡ work.old.items ++ pairs_of decision) }
{
    match decision {
        Decision::Clash | Decision::FirstUnder | Decision::OtherUnder | Decision::Level => {}
        Decision::LevelOne(pair) => work.push(pair)?,
        Decision::LevelTwo(pair, other) => {
            work.push(pair)?;
            work.push(other)?;
        }
    }
    Ok(())
}

// Joins the classes of two numbers. The equations say which maps are asked for.
fn join_pair(
    cells: &Cells,
    equations: &[(Term, Term)],
    classes: &mut Classes,
    work: &mut Vec<(u32, u32)>,
    pair: (u32, u32),
) -> Result<(), UnifyFault>
    requires { IsUnifying cells.now equations.now classes.old (work.old.items ++ pair ∷ []) }
    ensures unifying { OnOk result (IsUnifying cells.now equations.now classes.new work.new.items) }
    ensures smaller { OnOk result (work_left classes.new work.new.items < work_left classes.old (work.old.items ++ pair ∷ [])) }
    ensures none { result ≡ Err NoUnifier → (h : Variable → Option Meaning) → Unifies h equations.now → ⊥ }
{
    let _equations = equations;
    let first = classes.root(pair.0);
    let other = classes.root(pair.1);
    if first == other {
        return Ok(());
    }
    let decision = decide(cells, first, other);
    join_roots(cells, classes, decision, first, other)?;
    push_pairs(work, decision)?;
    Ok(())
}

// Joins the classes of all pairs, and of those that they lead to.
fn join_all(
    cells: &Cells,
    equations: &[(Term, Term)],
    classes: &mut Classes,
    mut work: Vec<(u32, u32)>,
) -> Result<(), UnifyFault>
    requires { IsUnifying cells.now equations.now classes.old work.items }
    ensures unifying { OnOk result (IsUnifying cells.now equations.now classes.new []) }
    ensures none { result ≡ Err NoUnifier → (h : Variable → Option Meaning) → Unifies h equations.now → ⊥ }
{
    while let Some(pair) = work.pop() {
        join_pair(cells, equations, classes, &mut work, pair)?;
    }
    Ok(())
}

// The roots of all numbers, each at the place of its number.
fn roots_of(alloc: Global, classes: &Classes, count: u32) -> Result<Vec<u32>, AllocError>
    requires { count ≡ length classes.now }
    ensures count { IfOk result (λ v. length v.items ≡ length classes.now) }
    ensures roots { IfOk result (λ v. (n : ℕ) → n < length classes.now → Leads classes.now n (next v.items n)) }
{
    let mut roots = Vec::with_capacity(alloc, count as usize)?;
    for number in 0..count {
        roots.push(classes.root(number))?;
    }
    Ok(roots)
}

/// The roots of the classes of numbers that the equations make equal, in cells to which their sides are added.
pub(crate) fn solved_roots(
    alloc: Global,
    cells: &mut Cells,
    equations: &[(Term, Term)],
) -> Result<Vec<u32>, UnifyFault>
    ensures solved { IfOk result (λ v. AreSolved cells.new equations.now v.items) }
    ensures count { IfOk result (λ v. length v.items ≡ length cells.new) }
    ensures none { result ≡ Err NoUnifier → (h : Variable → Option Meaning) → Unifies h equations.now → ⊥ }
{
    let work = number_pairs(cells, alloc, equations)?;
    let Ok(count) = u32::try_from(cells.len()) else {
        return Err(UnifyFault::Memory);
    };
    let mut classes = Classes::new(alloc, count)?;
    join_all(cells, equations, &mut classes, work)?;
    cells.known();
    let roots = roots_of(alloc, &classes, count)?;
    Ok(roots)
}
