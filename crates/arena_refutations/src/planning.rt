//! What the steps of a refutation derive and name, by numbers, and sets that have the free variables of their proofs.
ghost use Rattle.std.specs.Prelude.{◌≡◌, ◌<◌, true, length, map as each, Some, slice_get, IfSome, IfOk};
ghost use Rattle.std.specs.List.{All, list_any};
ghost use Rattle.std.specs.Ordering.{eq_by_cmp};
ghost use Rattle.std.specs.FinMap as fin;
ghost use Rattle.fol.specs.declared.symbols.Var.{Var as Variable};
ghost use Rattle.fol.specs.Syntax.{free};
ghost use Rattle.fol.specs.Order.{var_cmp};
ghost use Rattle.finite.specs.Finite as set;
ghost use Rattle.free_variables.specs.Occurrence.{vars_formula, is_free_in_term};
ghost use Rattle.free_variables.specs.Union.{union_of};
ghost use Rattle.substitution.specs.Image.{image_term};
ghost use Rattle.lk_rules.specs.Sequents.{vars_sequent};
ghost use Rattle.arena_cells.specs.Standing.{Extends, HasFormula, HasSequent, HasMap, HasVariables, variable_at, variables_at, map_at, sequent_at, IsVariableAt, IsSequentAt, IsMapAt, AreVariablesAt};
ghost use Rattle.refutations.specs.declared.step.ResStep.{ResStep as Step};
ghost use Rattle.refutations.specs.Clauses.{IsClauseOf};
ghost use Rattle.refutations.specs.Refutations.{Derived, AreFormedSteps};
ghost use Rattle.arena_refutations.specs.Importing.{IsRefuted};
ghost use Rattle.image_laws.specs.Steps.{all_derived, AreDerived};
ghost use Rattle.arena_refutations.specs.Planning.{IsPlanned, ArePlanned};

use arena::Arena;
use fol::Formula;
use refutations::{Clause, ResStep};
use std::alloc::{AllocError, Global};
use substitution::Subst;

/// A step by numbers: the clause that it derives, a set that has the free variables of its proof, and the map or the atom that it names, 0
/// where it is an input clause, which names neither.
#[derive(Clone, Copy, Drop)]
pub(crate) struct Planned {
    pub clause: u32,
    pub set: u32,
    pub named: u32,
}

// The variables of the terms that a map gives to variables.
fn image_vars(arena: &mut Arena, alloc: Global, map: u32, vars: &[u32]) -> Result<u32, AllocError>
    requires map { IsMapAt arena.old map }
    requires vars { All (IsVariableAt arena.old) vars.now }
    ensures set { IfOk result (AreVariablesAt arena.new) }
    ensures has { IfOk result (λ n. (v w : Variable) → list_any (eq_by_cmp var_cmp w) (each (variable_at arena.old) vars.now) ≡ true → is_free_in_term v (image_term (fin.get (map_at arena.old map)) (free w)) ≡ true → set.has (variables_at arena.new n) v ≡ true) }
    ensures grown { Extends arena.old arena.new }
{
    let Some((var, rest)) = vars.split_first() else {
        return arena.no_variable(alloc);
    };
    let others = image_vars(arena, alloc, map, rest)?;
    let term = arena.image_of_term(alloc, map, *var)?;
    let own = arena.term_vars(alloc, term)?;
    arena.union_variables(alloc, others, own)
}

// A step under a map, where a set has the free variables of the proof that it is of.
fn plan_image(
    arena: &mut Arena,
    alloc: Global,
    source: u32,
    map: &Subst,
    clause: u32,
) -> Result<Planned, AllocError>
    requires source { AreVariablesAt arena.old source }
    ensures clause { IfOk result (λ p. p.clause ≡ clause) }
    ensures set { IfOk result (λ p. AreVariablesAt arena.new p.set) }
    ensures has { IfOk result (λ p. (v w : Variable) → set.has (variables_at arena.old source) w ≡ true → is_free_in_term v (image_term (fin.get map.now) (free w)) ≡ true → set.has (variables_at arena.new p.set) v ≡ true) }
    ensures named { IfOk result (λ p. HasMap arena.new p.named map.now) }
    ensures grown { Extends arena.old arena.new }
{
    let vars = Vec::from_slice(alloc, arena.variable_numbers(source))?;
    let named = arena.import_map(alloc, map)?;
    let set = image_vars(arena, alloc, named, &vars)?;
    Ok(Planned { clause, set, named })
}

// A resolution, where sets have the free variables of the proofs that it is of.
fn plan_resolvent(
    arena: &mut Arena,
    alloc: Global,
    sets: (u32, u32),
    atom: &Formula,
    clause: u32,
) -> Result<Planned, AllocError>
    requires first { AreVariablesAt arena.old sets.0 }
    requires second { AreVariablesAt arena.old sets.1 }
    requires clause { IsSequentAt arena.old clause }
    ensures clause { IfOk result (λ p. p.clause ≡ clause) }
    ensures set { IfOk result (λ p. HasVariables arena.new p.set (union_of (union_of (union_of (variables_at arena.old sets.0) (variables_at arena.old sets.1)) (vars_formula atom.now set.empty)) (vars_sequent (sequent_at arena.old clause)))) }
    ensures named { IfOk result (λ p. HasFormula arena.new p.named atom.now) }
    ensures grown { Extends arena.old arena.new }
{
    let (first, second) = sets;
    let named = arena.import_formula(alloc, atom)?;
    let both = arena.union_variables(alloc, first, second)?;
    let own = arena.free_vars(alloc, named)?;
    let all = arena.union_variables(alloc, both, own)?;
    let others = arena.sequent_vars(alloc, clause)?;
    let set = arena.union_variables(alloc, all, others)?;
    Ok(Planned { clause, set, named })
}

/// The set of the step at that place.
pub(crate) fn set_of(planned: &[Planned], step: u64) -> u32
    requires { step < length planned.now }
    ensures { IfSome (slice_get planned.now step) (λ p. result ≡ p.set) }
{
    planned[step as usize].set
}

// The step at a place, after those before it.
fn plan_step(
    arena: &mut Arena,
    alloc: Global,
    clauses: &[Clause],
    steps: &[ResStep],
    place: usize,
    planned: &[Planned],
    clause: u32,
) -> Result<Planned, AllocError>
    requires clauses { All IsClauseOf clauses.now }
    requires formed { AreFormedSteps steps.now }
    requires derived { AreDerived clauses.now steps.now }
    requires place { place < length steps.now }
    requires before { length planned.now ≡ place }
    requires planned { ArePlanned arena.old clauses.now steps.now planned.now }
    requires clause { (d : Derived) → slice_get (all_derived clauses.now steps.now) place ≡ Some d → HasSequent arena.old clause d.clause }
    ensures planned { IfOk result (λ p. (step : Step) (d : Derived) → slice_get steps.now place ≡ Some step → slice_get (all_derived clauses.now steps.now) place ≡ Some d → IsPlanned arena.new step d p) }
    ensures grown { Extends arena.old arena.new }
{
    let _clauses = clauses;
    match &steps[place] {
        ResStep::Input(_) => {
            let set = arena.sequent_vars(alloc, clause)?;
            let named = 0;
            Ok(Planned { clause, set, named })
        }
        ResStep::Subst(from, map) => {
            let source = set_of(planned, *from);
            plan_image(arena, alloc, source, map, clause)
        }
        ResStep::Resolve {
            positive,
            negative,
            atom,
        } => {
            let sets = (set_of(planned, *positive), set_of(planned, *negative));
            plan_resolvent(arena, alloc, sets, atom, clause)
        }
    }
}

/// The plan of the steps, which derive these clauses.
pub(crate) fn plan(
    arena: &mut Arena,
    alloc: Global,
    clauses: &[Clause],
    steps: &[ResStep],
    found: &[u32],
) -> Result<Vec<Planned>, AllocError>
    requires clauses { All IsClauseOf clauses.now }
    requires formed { AreFormedSteps steps.now }
    requires found { IsRefuted arena.old clauses.now steps.now found.now }
    ensures planned { IfOk result (λ ps. ArePlanned arena.new clauses.now steps.now ps.items) }
    ensures many { IfOk result (λ ps. length ps.items ≡ length steps.now) }
    ensures grown { Extends arena.old arena.new }
{
    let mut planned = Vec::with_capacity(alloc, steps.len())?;
    for place in 0..steps.len() {
        let clause = found[place];
        let step = plan_step(arena, alloc, clauses, steps, place, &planned, clause)?;
        planned.push(step)?;
    }
    Ok(planned)
}
