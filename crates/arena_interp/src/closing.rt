//! Quantifiers that are put around an interpolant.
ghost use Rattle.std.specs.Prelude.{IfOk};
ghost use Rattle.finite.specs.Finite as set;
ghost use Rattle.free_variables.specs.Occurrence.{vars_formula};
ghost use Rattle.interp_laws.specs.Interpolation.{quantified};
ghost use Rattle.arena_cells.specs.Standing.{Extends, formula_at, variable_at, sequent_at, IsFormulaAt, IsVariableAt, IsSequentAt};
ghost use Rattle.arena_interp.specs.Closing.{closed_once, closed_outside};
ghost use Rattle.arena_interp.specs.Partitions.{IsInterpolatedAt, interpolation_at, HasInterpolation};

use crate::by_side::{part_at, quantifier, quantifier_rules};
use crate::endings::{Ending, conclude_on};
use crate::interpolated::Interpolated;
use arena::{Arena, Parts};
use fol::Var;
use lk_rules::Side;
use std::alloc::{AllocError, Global};

// The interpolant with the variable quantified for that part.
fn quantify(
    arena: &mut Arena,
    alloc: Global,
    side: Side,
    one: u32,
    two: u32,
    variable: u32,
    made: Interpolated,
) -> Result<Interpolated, AllocError>
    requires one { IsSequentAt arena.old one }
    requires two { IsSequentAt arena.old two }
    requires variable { IsVariableAt arena.old variable }
    requires made { IsInterpolatedAt arena.old made }
    ensures made { IfOk result (HasInterpolation arena.new (quantified side (sequent_at arena.old one) (sequent_at arena.old two) (variable_at arena.old variable) (interpolation_at arena.old made))) }
    ensures grown { Extends arena.old arena.new }
{
    let body = arena.bind(alloc, made.formula, variable)?;
    let formula = arena.put(alloc, quantifier(side, body))?;
    let (rule, other_rule) = quantifier_rules(side, formula, variable);
    let own = Ending {
        rule,
        premises: Parts::One(made.proof(side)),
    };
    let other = Ending {
        rule: other_rule,
        premises: Parts::One(made.other_proof(side)),
    };
    conclude_on(arena, alloc, side, one, two, formula, own, other)
}

// The interpolant with the variable quantified, unless it is free in its part.
fn close_one(
    arena: &mut Arena,
    alloc: Global,
    side: Side,
    one: u32,
    two: u32,
    var: &Var,
    made: Interpolated,
) -> Result<Interpolated, AllocError>
    requires one { IsSequentAt arena.old one }
    requires two { IsSequentAt arena.old two }
    requires made { IsInterpolatedAt arena.old made }
    ensures made { IfOk result (HasInterpolation arena.new (closed_once side (sequent_at arena.old one) (sequent_at arena.old two) var.now (interpolation_at arena.old made))) }
    ensures grown { Extends arena.old arena.new }
{
    let variable = arena.import_variable(alloc, var)?;
    if arena.occurs_in_sequent(alloc, variable, part_at(side, one, two))? {
        return Ok(made);
    }
    quantify(arena, alloc, side, one, two, variable, made)
}

// The interpolant with each variable of the list quantified that isn't free in its part, the first one outermost.
fn close_over(
    arena: &mut Arena,
    alloc: Global,
    side: Side,
    one: u32,
    two: u32,
    vars: &[Var],
    made: Interpolated,
) -> Result<Interpolated, AllocError>
    requires one { IsSequentAt arena.old one }
    requires two { IsSequentAt arena.old two }
    requires made { IsInterpolatedAt arena.old made }
    ensures made { IfOk result (HasInterpolation arena.new (closed_outside side (sequent_at arena.old one) (sequent_at arena.old two) vars.now (interpolation_at arena.old made))) }
    ensures grown { Extends arena.old arena.new }
{
    match vars {
        [] => Ok(made),
        [var, rest @ ..] => {
            let inner = close_over(arena, alloc, side, one, two, rest, made)?;
            close_one(arena, alloc, side, one, two, var, inner)
        }
    }
}

/// The interpolant with those free variables of the formula quantified that aren't free in its part, the least one outermost.
pub(crate) fn close(
    arena: &mut Arena,
    alloc: Global,
    side: Side,
    one: u32,
    two: u32,
    formula: u32,
    made: Interpolated,
) -> Result<Interpolated, AllocError>
    requires one { IsSequentAt arena.old one }
    requires two { IsSequentAt arena.old two }
    requires formula { IsFormulaAt arena.old formula }
    requires made { IsInterpolatedAt arena.old made }
    ensures made { IfOk result (HasInterpolation arena.new (closed_outside side (sequent_at arena.old one) (sequent_at arena.old two) (set.listing (vars_formula (formula_at arena.old formula) set.empty)) (interpolation_at arena.old made))) }
    ensures grown { Extends arena.old arena.new }
{
    let set = arena.free_vars(alloc, formula)?;
    let vars = arena.export_variables(alloc, set)?;
    close_over(arena, alloc, side, one, two, vars.as_slice(), made)
}
