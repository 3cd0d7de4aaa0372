//! The proofs of the steps of a refutation under maps, by numbers. Where a step's proof is the image of another under a map, the map goes on
//! up to the input clauses, so that no proof is made of which only images are used.
ghost use Rattle.std.specs.Prelude.{◌≡◌, ◌<◌, true, false, Ok, length, map as each, Some, slice_get, IfOk, IfSome};
ghost use Rattle.std.specs.List.{All, list_any};
ghost use Rattle.std.specs.Ordering.{eq_by_cmp};
ghost use Rattle.std.specs.BTreeMap as ordered;
ghost use Rattle.std.specs.FinMap as fin;
ghost use Rattle.fol.specs.declared.symbols.Var.{Var as Variable};
ghost use Rattle.fol.specs.Syntax.{free};
ghost use Rattle.fol.specs.Order.{var_cmp};
ghost use Rattle.fol.specs.Formed.{IsFormed};
ghost use Rattle.finite.specs.Finite as set;
ghost use Rattle.substitution.specs.Image.{image, image_term, IsFormedMap};
ghost use Rattle.lk_rules.specs.declared.rule.Rule.TheVariants.{Cut};
ghost use Rattle.lk_rules.specs.Sequents.{union_sequent, image_sequent};
ghost use Rattle.proof_trees.specs.Trees.{node, none, more};
ghost use Rattle.arena_cells.specs.Standing.{Extends, HasTerm, HasSequent, HasTree, variable_at, formula_at, variables_at, map_at, sequent_at, tree_at, IsVariableAt, IsFormulaAt, IsSequentAt, IsMapAt, IsTreeAt, AreVariablesAt};
ghost use Rattle.refutations.specs.Clauses.{IsClauseOf, closure_of, closures};
ghost use Rattle.refutations.specs.declared.step.ResStep.TheVariants.{Input};
ghost use Rattle.refutations.specs.Refutations.{Derived, refutation, AreFormedSteps};
ghost use Rattle.arena_refutations.specs.Standing.{IsClosedAt};
ghost use Rattle.arena_refutations.specs.Importing.{IsRefuted};
ghost use Rattle.image_laws.specs.Steps.{all_derived, AreDerived};
ghost use Rattle.arena_refutations.specs.Planning.{ArePlanned, IsMade, AreMade, pair_cmp};
ghost use Rattle.image_laws.specs.Terms.{over_terms};

use crate::closing::{Closed, close_clauses};
use crate::input_trees::over_images;
use crate::planning::{Planned, plan, set_of};
use arena::{Arena, Parts, RuleKey};
use arena_proofs::inference;
use fol::Var;
use refutations::{Clause, ResStep};
use std::alloc::{AllocError, Global};
use std::collections::BTreeMap;

// The image of a variable under both maps, one after the other.
fn image_of_image(
    arena: &mut Arena,
    alloc: Global,
    first: u32,
    second: u32,
    var: u32,
) -> Result<u32, AllocError>
    requires first { IsMapAt arena.old first }
    requires second { IsMapAt arena.old second }
    requires var { IsVariableAt arena.old var }
    ensures term { IfOk result (λ n. HasTerm arena.new n (image_term (fin.get (map_at arena.old second)) (image_term (fin.get (map_at arena.old first)) (free (variable_at arena.old var))))) }
    ensures grown { Extends arena.old arena.new }
{
    let term = arena.image_of_term(alloc, first, var)?;
    arena.image_of_term(alloc, second, term)
}

// The maps one after the other, for the variables at the numbers. A variable that they send to itself gets no binding.
fn composed(
    arena: &mut Arena,
    alloc: Global,
    first: u32,
    second: u32,
    vars: &[u32],
) -> Result<u32, AllocError>
    requires first { IsMapAt arena.old first }
    requires second { IsMapAt arena.old second }
    requires first_formed { IsFormedMap (fin.get (map_at arena.old first)) }
    requires second_formed { IsFormedMap (fin.get (map_at arena.old second)) }
    requires vars { All (IsVariableAt arena.old) vars.now }
    ensures map { IfOk result (IsMapAt arena.new) }
    ensures formed { IfOk result (λ n. IsFormedMap (fin.get (map_at arena.new n))) }
    ensures same { IfOk result (λ n. (v : Variable) → list_any (eq_by_cmp var_cmp v) (each (variable_at arena.old) vars.now) ≡ true → image_term (fin.get (map_at arena.old second)) (image_term (fin.get (map_at arena.old first)) (free v)) ≡ image_term (fin.get (map_at arena.new n)) (free v)) }
    ensures others { IfOk result (λ n. (v : Variable) → list_any (eq_by_cmp var_cmp v) (each (variable_at arena.old) vars.now) ≡ false → image_term (fin.get (map_at arena.new n)) (free v) ≡ free v) }
    ensures grown { Extends arena.old arena.new }
{
    let Some((var, rest)) = vars.split_first() else {
        return arena.no_binding(alloc);
    };
    let others = composed(arena, alloc, first, second, rest)?;
    let term = image_of_image(arena, alloc, first, second, *var)?;
    arena.known();
    if term == *var {
        return Ok(others);
    }
    arena.with_binding(alloc, others, *var, term)
}

// The same for the variables of a set.
fn composed_for(
    arena: &mut Arena,
    alloc: Global,
    first: u32,
    second: u32,
    wanted: u32,
) -> Result<u32, AllocError>
    requires first { IsMapAt arena.old first }
    requires second { IsMapAt arena.old second }
    requires first_formed { IsFormedMap (fin.get (map_at arena.old first)) }
    requires second_formed { IsFormedMap (fin.get (map_at arena.old second)) }
    requires wanted { AreVariablesAt arena.old wanted }
    ensures map { IfOk result (IsMapAt arena.new) }
    ensures formed { IfOk result (λ n. IsFormedMap (fin.get (map_at arena.new n))) }
    ensures same { IfOk result (λ n. (v : Variable) → set.has (variables_at arena.old wanted) v ≡ true → image_term (fin.get (map_at arena.old second)) (image_term (fin.get (map_at arena.old first)) (free v)) ≡ image_term (fin.get (map_at arena.new n)) (free v)) }
    ensures grown { Extends arena.old arena.new }
{
    let vars = Vec::from_slice(alloc, arena.variable_numbers(wanted))?;
    composed(arena, alloc, first, second, &vars)
}

// The closures and the image of a clause.
fn image_end(
    arena: &mut Arena,
    alloc: Global,
    closures: u32,
    clause: u32,
    map: u32,
) -> Result<u32, AllocError>
    requires closures { IsSequentAt arena.old closures }
    requires clause { IsSequentAt arena.old clause }
    requires map { IsMapAt arena.old map }
    ensures end { IfOk result (λ n. HasSequent arena.new n (union_sequent (sequent_at arena.old closures) (image_sequent (fin.get (map_at arena.old map)) (sequent_at arena.old clause)))) }
    ensures grown { Extends arena.old arena.new }
{
    let literals = arena.image_of_sequent(alloc, map, clause)?;
    arena.union_sequents(alloc, closures, literals)
}

// The image of the proof of an input clause under the map. These are the closures of all clauses, its own, and its literals.
fn prove_clause(
    arena: &mut Arena,
    alloc: Global,
    vars: &[Var],
    closures: u32,
    closure: u32,
    literals: u32,
    map: u32,
) -> Result<u32, AllocError>
    requires closures { IsSequentAt arena.old closures }
    requires closure { IsFormulaAt arena.old closure }
    requires literals { IsSequentAt arena.old literals }
    requires map { IsMapAt arena.old map }
    ensures tree { IfOk result (λ n. HasTree arena.new n (over_terms (union_sequent (sequent_at arena.old closures) (image_sequent (fin.get (map_at arena.old map)) (sequent_at arena.old literals))) (each (λ (x : Variable). image_term (fin.get (map_at arena.old map)) (free x)) vars.now) (formula_at arena.old closure))) }
    ensures grown { Extends arena.old arena.new }
{
    let end = image_end(arena, alloc, closures, literals, map)?;
    over_images(arena, alloc, end, vars, closure, map)
}

// The image of the proof of a step that is an input clause.
fn prove_input(
    arena: &mut Arena,
    alloc: Global,
    clauses: &[Clause],
    closed: &Closed,
    steps: &[ResStep],
    planned: Planned,
    place: u64,
    number: u64,
    map: u32,
) -> Result<u32, AllocError>
    requires clauses { All IsClauseOf clauses.now }
    requires closed { IsClosedAt arena.old clauses.now closed.now }
    requires derived { AreDerived clauses.now steps.now }
    requires step { slice_get steps.now place ≡ Some (Input number) }
    requires within { number < length clauses.now }
    requires planned { (d : Derived) → slice_get (all_derived clauses.now steps.now) place ≡ Some d → HasSequent arena.old planned.clause d.clause }
    requires map { IsMapAt arena.old map }
    requires formed { IsFormedMap (fin.get (map_at arena.old map)) }
    ensures tree { IfOk result (IsMade arena.new clauses.now steps.now place map) }
    ensures grown { Extends arena.old arena.new }
{
    let _steps = steps;
    let _place = place;
    let vars = clauses[number as usize].vars.as_slice();
    let closure = closed.closures[number as usize];
    prove_clause(arena, alloc, vars, closed.end, closure, planned.clause, map)
}

// The cut on the image of the atom, over the proofs of two clauses. These are the closures of all clauses, and the resolvent.
fn prove_resolvent(
    arena: &mut Arena,
    alloc: Global,
    closures: u32,
    planned: Planned,
    map: u32,
    premises: (u32, u32),
) -> Result<u32, AllocError>
    requires closures { IsSequentAt arena.old closures }
    requires clause { IsSequentAt arena.old planned.clause }
    requires atom { IsFormulaAt arena.old planned.named }
    requires map { IsMapAt arena.old map }
    requires first { IsTreeAt arena.old premises.0 }
    requires second { IsTreeAt arena.old premises.1 }
    ensures tree { IfOk result (λ n. HasTree arena.new n (node (Cut (image (fin.get (map_at arena.old map)) (formula_at arena.old planned.named))) (union_sequent (sequent_at arena.old closures) (image_sequent (fin.get (map_at arena.old map)) (sequent_at arena.old planned.clause))) (more (tree_at arena.old premises.0) (more (tree_at arena.old premises.1) none)))) }
    ensures grown { Extends arena.old arena.new }
{
    let end = image_end(arena, alloc, closures, planned.clause, map)?;
    let rule = RuleKey::Cut(arena.image(alloc, map, planned.named)?);
    let (first, second) = premises;
    inference(arena, alloc, rule, end, Parts::Two(first, second))
}

// Enters the proof of a step under a map.
fn note_made(
    arena: &Arena,
    clauses: &[Clause],
    steps: &[ResStep],
    made: &mut BTreeMap<(u64, u32), u32>,
    place: u64,
    map: u32,
    tree: u32,
) -> Result<(), AllocError>
    requires made { AreMade arena.now clauses.now steps.now made.old }
    requires map { IsMapAt arena.now map }
    requires tree { IsMade arena.now clauses.now steps.now place map tree }
    ensures made { AreMade arena.now clauses.now steps.now made.new }
    ensures entered { IfOk result (λ _. ordered.get pair_cmp made.new (place, map) ≡ Some tree) }
{
    let (_arena, _clauses, _steps) = (arena, clauses, steps);
    made.insert((place, map), tree)?;
    Ok(())
}

// The proof of a step under a map, where it was made.
fn known(
    arena: &Arena,
    clauses: &[Clause],
    steps: &[ResStep],
    made: &BTreeMap<(u64, u32), u32>,
    place: u64,
    map: u32,
) -> Option<u32>
    requires { AreMade arena.now clauses.now steps.now made.now }
    ensures entry { result ≡ ordered.get pair_cmp made.now (place, map) }
    ensures made { IfSome result (IsMade arena.now clauses.now steps.now place map) }
{
    let (_arena, _clauses, _steps) = (arena, clauses, steps);
    made.get(&(place, map)).copied()
}

// The proof of the step at the place under the map. It is made once for each choice of the bindings that it needs.
#[cycle(proofs)]
fn prove(
    arena: &mut Arena,
    alloc: Global,
    clauses: &[Clause],
    closed: &Closed,
    steps: &[ResStep],
    planned: &[Planned],
    made: &mut BTreeMap<(u64, u32), u32>,
    place: u64,
    map: u32,
) -> Result<u32, AllocError>
    requires clauses { All IsClauseOf clauses.now }
    requires closed { IsClosedAt arena.old clauses.now closed.now }
    requires formed { AreFormedSteps steps.now }
    requires derived { AreDerived clauses.now steps.now }
    requires planned { ArePlanned arena.old clauses.now steps.now planned.now }
    requires many { length planned.now ≡ length steps.now }
    requires made { AreMade arena.old clauses.now steps.now made.old }
    requires place { place < length steps.now }
    requires map { IsMapAt arena.old map }
    requires map_formed { IsFormedMap (fin.get (map_at arena.old map)) }
    ensures tree { IfOk result (IsMade arena.new clauses.now steps.now place map) }
    ensures made { AreMade arena.new clauses.now steps.now made.new }
    ensures grown { Extends arena.old arena.new }
{
    let map = arena.restrict(alloc, map, planned[place as usize].set)?;
    if let Some(tree) = known(arena, clauses, steps, made, place, map) {
        return Ok(tree);
    }
    let tree = prove_new(
        arena, alloc, clauses, closed, steps, planned, made, place, map,
    )?;
    note_made(arena, clauses, steps, made, place, map, tree)?;
    Ok(tree)
}

// The same, from the proofs of the steps that it is of.
#[cycle(proofs)]
fn prove_new(
    arena: &mut Arena,
    alloc: Global,
    clauses: &[Clause],
    closed: &Closed,
    steps: &[ResStep],
    planned: &[Planned],
    made: &mut BTreeMap<(u64, u32), u32>,
    place: u64,
    map: u32,
) -> Result<u32, AllocError>
    requires clauses { All IsClauseOf clauses.now }
    requires closed { IsClosedAt arena.old clauses.now closed.now }
    requires formed { AreFormedSteps steps.now }
    requires derived { AreDerived clauses.now steps.now }
    requires planned { ArePlanned arena.old clauses.now steps.now planned.now }
    requires many { length planned.now ≡ length steps.now }
    requires made { AreMade arena.old clauses.now steps.now made.old }
    requires place { place < length steps.now }
    requires map { IsMapAt arena.old map }
    requires map_formed { IsFormedMap (fin.get (map_at arena.old map)) }
    ensures tree { IfOk result (IsMade arena.new clauses.now steps.now place map) }
    ensures made { AreMade arena.new clauses.now steps.now made.new }
    ensures grown { Extends arena.old arena.new }
{
    let own = planned[place as usize];
    match &steps[place as usize] {
        ResStep::Input(number) => prove_input(
            arena, alloc, clauses, closed, steps, own, place, *number, map,
        ),
        ResStep::Subst(from, _) => {
            let wanted = set_of(planned, *from);
            let map = composed_for(arena, alloc, own.named, map, wanted)?;
            prove(
                arena, alloc, clauses, closed, steps, planned, made, *from, map,
            )
        }
        ResStep::Resolve {
            positive,
            negative,
            atom: _,
        } => {
            let first = prove(
                arena, alloc, clauses, closed, steps, planned, made, *positive, map,
            )?;
            let second = prove(
                arena, alloc, clauses, closed, steps, planned, made, *negative, map,
            )?;
            prove_resolvent(arena, alloc, closed.end, own, map, (first, second))
        }
    }
}

// The proof of the last step.
fn prove_whole(
    arena: &mut Arena,
    alloc: Global,
    clauses: &[Clause],
    closed: &Closed,
    steps: &[ResStep],
    planned: &[Planned],
    found: &[u32],
) -> Result<u32, AllocError>
    requires clauses { All IsClauseOf clauses.now }
    requires closures { All (λ c. IsFormed (closure_of c)) clauses.now }
    requires closed { IsClosedAt arena.old clauses.now closed.now }
    requires formed { AreFormedSteps steps.now }
    requires found { IsRefuted arena.old clauses.now steps.now found.now }
    requires planned { ArePlanned arena.old clauses.now steps.now planned.now }
    requires many { length planned.now ≡ length steps.now }
    ensures tree { IfOk result (λ n. refutation clauses.now steps.now ≡ Ok (tree_at arena.new n)) }
    ensures there { IfOk result (IsTreeAt arena.new) }
    ensures grown { Extends arena.old arena.new }
{
    let _found = found;
    let mut made = BTreeMap::new(alloc);
    let map = arena.no_binding(alloc)?;
    let last = steps.len() as u64 - 1;
    prove(
        arena, alloc, clauses, closed, steps, planned, &mut made, last, map,
    )
}

/// The tree of the proof that a refutation stands for, whose steps derive these clauses.
pub fn prove_last(
    arena: &mut Arena,
    alloc: Global,
    clauses: &[Clause],
    steps: &[ResStep],
    found: &[u32],
) -> Result<u32, AllocError>
    requires clauses { All IsClauseOf clauses.now }
    requires steps { AreFormedSteps steps.now }
    requires found { IsRefuted arena.old clauses.now steps.now found.now }
    ensures tree { IfOk result (λ n. refutation clauses.now steps.now ≡ Ok (tree_at arena.new n)) }
    ensures there { IfOk result (IsTreeAt arena.new) }
    ensures formed { IfOk result (λ _. All (λ c. IsFormed (closure_of c)) clauses.now) }
    ensures grown { Extends arena.old arena.new }
{
    let closed = close_clauses(arena, alloc, clauses)?;
    let planned = plan(arena, alloc, clauses, steps, found)?;
    prove_whole(arena, alloc, clauses, &closed, steps, &planned, found)
}
