//! Copies of sequents.
ghost use Rattle.std.specs.Prelude.{◌≡◌, map as each, IfOk};
ghost use Rattle.std.specs.List.{All};
ghost use Rattle.arena_cells.specs.Standing.{Extends, HasSide, HasSequent, formula_at, side_at, sequent_at, IsFormulaAt, IsSideAt, IsSequentAt};
ghost use Rattle.arena_copy.specs.Copied.{AreCopied};

use crate::copied::Copied;
use crate::formulas::copy_formula;
use arena::Arena;
use std::alloc::{AllocError, Global};

// The numbers of formulas' copies.
fn copy_formulas(
    alloc: Global,
    from: &Arena,
    to: &mut Arena,
    copied: &mut Copied,
    formulas: &[u32],
) -> Result<Vec<u32>, AllocError>
    requires there { All (IsFormulaAt from.now) formulas.now }
    requires copied { AreCopied from.now to.old copied.old }
    ensures formulas { IfOk result (λ copies. each (formula_at to.new) copies.items ≡ each (formula_at from.now) formulas.now) }
    ensures there { IfOk result (λ copies. All (IsFormulaAt to.new) copies.items) }
    ensures grown { Extends to.old to.new }
    ensures copied { IfOk result (λ _. AreCopied from.now to.new copied.new) }
{
    let mut copies = Vec::with_capacity(alloc, formulas.len())?;
    for formula in formulas {
        let copy = copy_formula(alloc, from, to, copied, *formula)?;
        copies.push(copy)?;
    }
    Ok(copies)
}

// The number of a side's copy.
fn copy_side(
    alloc: Global,
    from: &Arena,
    to: &mut Arena,
    copied: &mut Copied,
    side: u32,
) -> Result<u32, AllocError>
    requires there { IsSideAt from.now side }
    requires copied { AreCopied from.now to.old copied.old }
    ensures side { IfOk result (λ n. HasSide to.new n (side_at from.now side)) }
    ensures grown { Extends to.old to.new }
    ensures copied { IfOk result (λ _. AreCopied from.now to.new copied.new) }
{
    if let Some(copy) = copied.copy(from, to, side) {
        return Ok(copy);
    }
    let formulas = copy_formulas(alloc, from, to, copied, from.side_numbers(side))?;
    let copy = to.put_side(alloc, formulas)?;
    copied.note(from, to, side, copy)?;
    Ok(copy)
}

/// The number of a sequent's copy. Each distinct side is copied once.
#[tactic(auto, using(arena_cells::proofs::Facts::sequents))]
pub(crate) fn copy_sequent(
    alloc: Global,
    from: &Arena,
    to: &mut Arena,
    copied: &mut Copied,
    sequent: u32,
) -> Result<u32, AllocError>
    requires there { IsSequentAt from.now sequent }
    requires copied { AreCopied from.now to.old copied.old }
    ensures sequent { IfOk result (λ n. HasSequent to.new n (sequent_at from.now sequent)) }
    ensures grown { Extends to.old to.new }
    ensures copied { IfOk result (λ _. AreCopied from.now to.new copied.new) }
{
    let (left, right) = from.sides(sequent);
    let left = copy_side(alloc, from, to, copied, left)?;
    let right = copy_side(alloc, from, to, copied, right)?;
    to.put_sequent(alloc, left, right)
}
