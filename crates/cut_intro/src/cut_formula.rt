//! The formula of a cut.
ghost use Rattle.std.specs.Prelude.{◌≡◌, map, IfOk};
ghost use Rattle.std.specs.List.{All};
ghost use Rattle.fol.specs.Formed.{IsFormed};
ghost use Rattle.fol.specs.Syntax.{all};
ghost use Rattle.substitution.specs.Instance.{bind as bound_body};
ghost use Rattle.herbrand_laws.specs.Introduction.{assumed as assumed_on, conjunction as conjunction_of};
ghost use Rattle.cut_intro.specs.Instances.{claim as claimed, IsFormedInstance};

use crate::instance::Instance;
use crate::matrices::matrix_instance;
use fol::{Formula, Var};
use lk_rules::Side;
use std::alloc::{AllocError, Global};
use substitution::bind;

// What a formula on a side says if it doesn't make the sequent true.
fn assumed(alloc: Global, side: Side, formula: Formula) -> Result<Formula, AllocError>
    ensures value { IfOk result (λ f. f ≡ assumed_on side formula) }
    ensures formed { IsFormed formula → IfOk result IsFormed }
{
    match side {
        Side::Left => Ok(formula),
        Side::Right => Formula::not(alloc, formula),
    }
}

// What an instance says if it doesn't make the sequent true.
fn claim(alloc: Global, instance: &Instance) -> Result<Formula, AllocError>
    requires { IsFormedInstance instance.now }
    ensures value { IfOk result (λ f. f ≡ claimed instance.now) }
    ensures formed { IfOk result IsFormed }
{
    let matrix = matrix_instance(alloc, &instance.formula, &instance.tuple)?;
    assumed(alloc, instance.side, matrix)
}

// What some instances say together: a conjunction, chained to the left.
fn conjunction(alloc: Global, instances: &[Instance]) -> Result<Formula, AllocError>
    requires { All IsFormedInstance instances.now }
    ensures value { IfOk result (λ f. f ≡ conjunction_of (map claimed instances.now)) }
    ensures formed { IfOk result IsFormed }
{
    let [first, others @ ..] = instances else {
        return Formula::top(alloc);
    };
    let mut front = claim(alloc, first)?;
    for instance in others {
        let next = claim(alloc, instance)?;
        front = Formula::and(alloc, front, next)?;
    }
    Ok(front)
}

/// What instances with the variable say, of everything.
pub(crate) fn cut_formula(
    alloc: Global,
    variable: &Var,
    instances: &[Instance],
) -> Result<Formula, AllocError>
    requires { All IsFormedInstance instances.now }
    ensures value { IfOk result (λ f. f ≡ all (bound_body (conjunction_of (map claimed instances.now)) variable.now)) }
    ensures formed { IfOk result IsFormed }
{
    let matrix = conjunction(alloc, instances)?;
    let body = bind(alloc, &matrix, variable)?;
    Formula::all(alloc, body)
}
