//! Sequents within others that are in the arena already.
ghost use Rattle.std.specs.Prelude.{IfOk, IfSome};
ghost use Rattle.finite.specs.Finite as set;
ghost use Rattle.lk_rules.specs.Sequents.{IsSubsequent};
ghost use Rattle.arena_cells.specs.Standing.{Extends, HasSide, HasSequent, side_at, sequent_at, IsFormulaAt, IsSideAt, IsSequentAt};

use arena::Arena;
use lk_rules::{Formulas, Sequent};
use std::alloc::{AllocError, Global};

// The number of a set within the one at the number `most`, which has one more formula, and most likely `main`. Where it has that, the set is
// the other one without it: one search tells that the set lacks it.
fn side_without_main(
    arena: &mut Arena,
    alloc: Global,
    formulas: &Formulas,
    most: u32,
    main: u32,
) -> Result<u32, AllocError>
    requires most { IsSideAt arena.old most }
    requires main { IsFormulaAt arena.old main }
    requires within { set.IsSubset formulas.now (side_at arena.old most) }
    ensures side { IfOk result (λ n. HasSide arena.new n formulas.now) }
    ensures grown { Extends arena.old arena.new }
{
    if formulas.has(arena.formula(main)) {
        return arena.import_side(alloc, formulas);
    }
    let others = arena.side_without(alloc, most, main)?;
    if arena.side_numbers(others).len() <= formulas.as_slice().len() {
        return Ok(others);
    }
    arena.import_side(alloc, formulas)
}

// The number of a set within the one at the number `most`. Where it has as many formulas it is the same, and none of them is looked at. Where
// it has one fewer, that is most likely `main`.
#[tactic(auto, using(crate::proofs::Sizes::same_side))]
fn side_within(
    arena: &mut Arena,
    alloc: Global,
    formulas: &Formulas,
    most: u32,
    main: Option<u32>,
) -> Result<u32, AllocError>
    requires most { IsSideAt arena.old most }
    requires main { IfSome main (IsFormulaAt arena.old) }
    requires within { set.IsSubset formulas.now (side_at arena.old most) }
    ensures side { IfOk result (λ n. HasSide arena.new n formulas.now) }
    ensures grown { Extends arena.old arena.new }
{
    let all = arena.side_numbers(most).len();
    let count = formulas.as_slice().len();
    if all <= count {
        return Ok(most);
    }
    match main {
        Some(main) if all - count == 1 => side_without_main(arena, alloc, formulas, most, main),
        _ => arena.import_side(alloc, formulas),
    }
}

/// The number of a sequent within the one at the number `most`. A side that has all formulas of this one's, or all but `main`, gets its number
/// from that; of another one each formula is looked up.
#[tactic(auto, using(arena_cells::proofs::Facts::sequents))]
pub(crate) fn sequent_within(
    arena: &mut Arena,
    alloc: Global,
    sequent: &Sequent,
    most: u32,
    main: Option<u32>,
) -> Result<u32, AllocError>
    requires most { IsSequentAt arena.old most }
    requires main { IfSome main (IsFormulaAt arena.old) }
    requires within { IsSubsequent sequent.now (sequent_at arena.old most) }
    ensures sequent { IfOk result (λ n. HasSequent arena.new n sequent.now) }
    ensures grown { Extends arena.old arena.new }
{
    let (left, right) = arena.sides(most);
    let left = side_within(arena, alloc, &sequent.left, left, main)?;
    let right = side_within(arena, alloc, &sequent.right, right, main)?;
    arena.put_sequent(alloc, left, right)
}
