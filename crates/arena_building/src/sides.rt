//! The sides of the sequent of a list's formulas, in an arena.
ghost use Rattle.std.specs.Prelude.{◌≡◌, ◌++◌, map, IfOk, IfSome};
ghost use Rattle.std.specs.List.{All, list_any};
ghost use Rattle.finite.specs.Finite as set;
ghost use Rattle.lk_rules.specs.Sequents.{adds_to};
ghost use Rattle.expansion_laws.specs.Expansions.{shallow};
ghost use Rattle.arena_cells.specs.Standing.{Extends, HasSide, HasSequent, formula_at, sequent_at, IsFormulaAt, IsSequentAt};
ghost use Rattle.building_laws.specs.Lists.{conclusion as sequent_of, trees_on};
ghost use Rattle.arena_building.specs.Building.{IsAnswered};
ghost use Rattle.arena_building.specs.Dividing.{items_of, IsAddedNumbered};
ghost use Rattle.arena_building.specs.Numbered.{trees, IsNumbered};
ghost use Rattle.arena_building.specs.Sides.{sides_at, AreSidesAt, HasSides, with_main, added_to, is_on as is_numbered_on, number_on};

use crate::dividing::Added;
use crate::placed::PlacedExp;
use arena::Arena;
use lk_rules::Side;
use std::alloc::{AllocError, Global};

/// The numbers of an antecedent and of a succedent.
#[derive(Clone, Copy)]
pub(crate) struct Sides {
    pub left: u32,
    pub right: u32,
}

/// The formula that a rule is applied to, on its side.
#[derive(Clone, Copy)]
pub(crate) struct Main {
    pub side: Side,
    pub formula: u32,
}

// The sides of a sequent.
#[tactic(auto, using(arena_cells::proofs::Facts::sequents))]
fn sides_of(arena: &Arena, sequent: u32) -> Sides
    requires { IsSequentAt arena.now sequent }
    ensures { HasSides arena.now result (sequent_at arena.now sequent) }
{
    let (left, right) = arena.sides(sequent);
    Sides { left, right }
}

// The sides with a formula on one of them.
#[tactic(auto, using(arena_cells::proofs::Facts::sequents))]
fn with_formula(
    arena: &mut Arena,
    alloc: Global,
    sides: Sides,
    side: Side,
    formula: u32,
) -> Result<Sides, AllocError>
    requires sides { AreSidesAt arena.old sides }
    requires formula { IsFormulaAt arena.old formula }
    ensures sides { IfOk result (λ s. HasSides arena.new s (adds_to (sides_at arena.old sides) side (formula_at arena.old formula))) }
    ensures grown { Extends arena.old arena.new }
{
    let Sides { left, right } = sides;
    match side {
        Side::Left => {
            let left = arena.side_with(alloc, left, formula)?;
            Ok(Sides { left, right })
        }
        Side::Right => {
            let right = arena.side_with(alloc, right, formula)?;
            Ok(Sides { left, right })
        }
    }
}

// Whether the tree has the formula on the side.
fn is_on(placed: &PlacedExp<'_>, side: Side, formula: u32) -> bool
    ensures { result ≡ is_numbered_on side formula placed.now }
{
    match (side, placed.side()) {
        (Side::Left, Side::Left) | (Side::Right, Side::Right) => placed.formula() == formula,
        (Side::Left, Side::Right) | (Side::Right, Side::Left) => false,
    }
}

// Whether a tree of the list has the formula on the side.
fn stands(list: &[PlacedExp<'_>], side: Side, formula: u32) -> bool
    ensures { result ≡ list_any (is_numbered_on side formula) list.now }
{
    list.iter().any(|placed| is_on(placed, side, formula))
}

// The sides without the formula of a tree that is taken out of a list, unless another tree has it there too.
fn without_tree(
    arena: &mut Arena,
    alloc: Global,
    sides: Sides,
    list: &[PlacedExp<'_>],
    side: Side,
    formula: u32,
) -> Result<Sides, AllocError>
    requires numbers { All (IsNumbered arena.old) list.now }
    requires formula { IsFormulaAt arena.old formula }
    requires sides { HasSides arena.old sides (adds_to (sequent_of (trees list.now)) side (formula_at arena.old formula)) }
    ensures sides { IfOk result (λ s. HasSides arena.new s (sequent_of (trees list.now))) }
    ensures grown { Extends arena.old arena.new }
{
    arena.known();
    if stands(list, side, formula) {
        return Ok(sides);
    }
    let Sides { left, right } = sides;
    match side {
        Side::Left => {
            let left = arena.side_without(alloc, left, formula)?;
            Ok(Sides { left, right })
        }
        Side::Right => {
            let right = arena.side_without(alloc, right, formula)?;
            Ok(Sides { left, right })
        }
    }
}

/// The sides of what stays of a list, by the sequent of the list, where that is there, and what was taken out of it.
pub(crate) fn rest_sides(
    arena: &mut Arena,
    alloc: Global,
    end: Option<u32>,
    main: Option<Main>,
    list: &[PlacedExp<'_>],
) -> Result<Option<Sides>, AllocError>
    requires numbers { All (IsNumbered arena.old) list.now }
    requires main { IfSome main (λ m. IsFormulaAt arena.old m.formula) }
    requires end { IfSome end (λ n. HasSequent arena.old n (with_main arena.old main (sequent_of (trees list.now)))) }
    ensures sides { IfOk result (IsAnswered (λ _ s. HasSides arena.new s (sequent_of (trees list.now))) end) }
    ensures grown { Extends arena.old arena.new }
{
    let Some(end) = end else {
        return Ok(None);
    };
    let sides = sides_of(arena, end);
    let Some(Main { side, formula }) = main else {
        return Ok(Some(sides));
    };
    Ok(Some(without_tree(arena, alloc, sides, list, side, formula)?))
}

/// The sides with the formulas of trees that are added.
pub(crate) fn with_added(
    arena: &mut Arena,
    alloc: Global,
    sides: Sides,
    added: &Added<'_>,
) -> Result<Sides, AllocError>
    requires sides { AreSidesAt arena.old sides }
    requires added { IsAddedNumbered arena.old added.now }
    ensures sides { IfOk result (λ s. HasSides arena.new s (added_to (sides_at arena.old sides) (trees (items_of added.now)))) }
    ensures grown { Extends arena.old arena.new }
{
    match added {
        Added::One(placed) => { with_formula(arena, alloc, sides, placed.side(), placed.formula()) }
        Added::Two(first, second) => {
            let sides = with_formula(arena, alloc, sides, second.side(), second.formula())?;
            with_formula(arena, alloc, sides, first.side(), first.formula())
        }
    }
}

// Appends the number of the tree's formula, where the tree stands on the side.
fn push_formula(
    formulas: &mut Vec<u32>,
    placed: &PlacedExp<'_>,
    side: Side,
) -> Result<(), AllocError>
    ensures { IfOk result (λ _. formulas.new.items ≡ formulas.old.items ++ number_on side placed.now) }
{
    match (side, placed.side()) {
        (Side::Left, Side::Left) | (Side::Right, Side::Right) => formulas.push(placed.formula())?,
        (Side::Left, Side::Right) | (Side::Right, Side::Left) => {}
    }
    Ok(())
}

// The formulas of the trees on a side.
fn side_of(
    arena: &mut Arena,
    alloc: Global,
    list: &[PlacedExp<'_>],
    side: Side,
) -> Result<u32, AllocError>
    requires { All (IsNumbered arena.old) list.now }
    ensures side { IfOk result (λ n. HasSide arena.new n (set.of_list (map shallow (trees_on side (trees list.now))))) }
    ensures grown { Extends arena.old arena.new }
{
    let mut formulas = Vec::new(alloc);
    for placed in list {
        push_formula(&mut formulas, placed, side)?;
    }
    arena.put_side(alloc, formulas)
}

/// The sequent of the trees' formulas.
pub(crate) fn conclusion(
    arena: &mut Arena,
    alloc: Global,
    list: &[PlacedExp<'_>],
) -> Result<u32, AllocError>
    requires { All (IsNumbered arena.old) list.now }
    ensures sequent { IfOk result (λ n. HasSequent arena.new n (sequent_of (trees list.now))) }
    ensures grown { Extends arena.old arena.new }
{
    let left = side_of(arena, alloc, list, Side::Left)?;
    let right = side_of(arena, alloc, list, Side::Right)?;
    arena.put_sequent(alloc, left, right)
}
