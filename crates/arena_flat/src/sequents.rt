//! Sequents with all unfolded.
ghost use Rattle.std.specs.Prelude.{◌≡◌, map as each, IfOk, OnOk};
ghost use Rattle.std.specs.List.{All};
ghost use Rattle.arena_cells.specs.Standing.{Extends, HasSide, HasSequent, formula_at, side_at, sequent_at, IsFormulaAt, IsSideAt, IsSequentAt};
ghost use Rattle.def_laws.specs.Flat.{flat as flat_of, flat_set, flat_sequent};
ghost use Rattle.arena_flat.specs.Flattened.{AreFlat};
ghost use Rattle.arena_flat.specs.Short.{IsShort, HasShortSides};

use crate::flattened::Flattened;
use crate::formulas::{flatten_formula, is_short};
use arena::Arena;
use std::alloc::{AllocError, Global};

// The numbers of formulas with all unfolded.
fn flatten_formulas(
    alloc: Global,
    from: &Arena,
    to: &mut Arena,
    flattened: &mut Flattened,
    formulas: &[u32],
) -> Result<Vec<u32>, AllocError>
    requires there { All (IsFormulaAt from.now) formulas.now }
    requires flattened { AreFlat from.now to.old flattened.old }
    ensures formulas { IfOk result (λ flat. each (formula_at to.new) flat.items ≡ each (λ n. flat_of (formula_at from.now n)) formulas.now) }
    ensures there { IfOk result (λ flat. All (IsFormulaAt to.new) flat.items) }
    ensures grown { Extends to.old to.new }
    ensures flattened { OnOk result (AreFlat from.now to.new flattened.new) }
{
    let mut list = Vec::with_capacity(alloc, formulas.len())?;
    for formula in formulas {
        let flat = flatten_formula(alloc, from, to, flattened, *formula)?;
        list.push(flat)?;
    }
    Ok(list)
}

// The number of a side with all unfolded.
fn flatten_side(
    alloc: Global,
    from: &Arena,
    to: &mut Arena,
    flattened: &mut Flattened,
    side: u32,
) -> Result<u32, AllocError>
    requires there { IsSideAt from.now side }
    requires flattened { AreFlat from.now to.old flattened.old }
    ensures side { IfOk result (λ n. HasSide to.new n (flat_set (side_at from.now side))) }
    ensures grown { Extends to.old to.new }
    ensures flattened { OnOk result (AreFlat from.now to.new flattened.new) }
{
    if let Some(flat) = flattened.side(from, to, side) {
        return Ok(flat);
    }
    let flat = flatten_members(alloc, from, to, flattened, side)?;
    flattened.note_side(from, to, side, flat)?;
    Ok(flat)
}

// The number of a side with all unfolded, formula by formula.
fn flatten_members(
    alloc: Global,
    from: &Arena,
    to: &mut Arena,
    flattened: &mut Flattened,
    side: u32,
) -> Result<u32, AllocError>
    requires there { IsSideAt from.now side }
    requires flattened { AreFlat from.now to.old flattened.old }
    ensures side { IfOk result (λ n. HasSide to.new n (flat_set (side_at from.now side))) }
    ensures grown { Extends to.old to.new }
    ensures flattened { OnOk result (AreFlat from.now to.new flattened.new) }
{
    let formulas = flatten_formulas(alloc, from, to, flattened, from.side_numbers(side))?;
    to.put_side(alloc, formulas)
}

/// The number of a sequent with all unfolded. Each distinct side is done once.
#[tactic(auto, using(arena_cells::proofs::Facts::sequents))]
pub(crate) fn flatten_sequent(
    alloc: Global,
    from: &Arena,
    to: &mut Arena,
    flattened: &mut Flattened,
    sequent: u32,
) -> Result<u32, AllocError>
    requires there { IsSequentAt from.now sequent }
    requires flattened { AreFlat from.now to.old flattened.old }
    ensures sequent { IfOk result (λ n. HasSequent to.new n (flat_sequent (sequent_at from.now sequent))) }
    ensures grown { Extends to.old to.new }
    ensures flattened { OnOk result (AreFlat from.now to.new flattened.new) }
{
    let (left, right) = from.sides(sequent);
    let left = flatten_side(alloc, from, to, flattened, left)?;
    let right = flatten_side(alloc, from, to, flattened, right)?;
    to.put_sequent(alloc, left, right)
}

// The formulas at the numbers are short.
fn are_short(from: &Arena, formulas: &[u32])
    requires { All (IsFormulaAt from.now) formulas.now }
    ensures { All (λ n. IsShort (formula_at from.now n)) formulas.now }
{
    for formula in formulas {
        is_short(from, *formula);
    }
}

/// The formulas of a sequent are short.
pub(crate) fn sides_are_short(from: &Arena, sequent: u32)
    requires { IsSequentAt from.now sequent }
    ensures { HasShortSides (sequent_at from.now sequent) }
{
    let (left, right) = from.sides(sequent);
    are_short(from, from.side_numbers(left));
    are_short(from, from.side_numbers(right));
}
