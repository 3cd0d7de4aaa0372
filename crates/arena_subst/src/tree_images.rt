//! Trees under maps.
ghost use Rattle.std.specs.Prelude.{◌≡◌, IfOk};
ghost use Rattle.std.specs.FinMap as fin;
ghost use Rattle.lk_rules.specs.Sequents.{image_sequent};
ghost use Rattle.proof_trees.specs.Trees.{concl, rule_of, below, IsValid, AllValid};
ghost use Rattle.proof_trees.specs.Substitution.{premise_map as map_of_premises, sub, sub_all};
ghost use Rattle.arena_cells.specs.Standing.{Extends, HasSequent, HasTree, sequent_at, tree_at, map_at, IsTreeAt, IsMapAt};
ghost use Rattle.arena_cells.specs.Meaning.{trees_at, HasPremises, ArePartsBelow};

use crate::rule_images::{premise_map, rule_image};
use crate::tree_variables::tree_vars;
use arena::{Arena, Parts, Task};
use arena_proofs::{end, inference, premises, rule};
use std::alloc::{AllocError, Global};

// The tree under the map, from the images of its conclusion and of the premises' trees.
fn root_image(
    arena: &mut Arena,
    alloc: Global,
    proof: u32,
    map: u32,
    end: u32,
    images: Parts,
) -> Result<u32, AllocError>
    requires proof { IsTreeAt arena.old proof }
    requires map { IsMapAt arena.old map }
    requires end { HasSequent arena.old end (image_sequent (fin.get (map_at arena.old map)) (concl (tree_at arena.old proof))) }
    requires there { HasPremises arena.old images }
    requires images { trees_at arena.old images ≡ sub_all (below (tree_at arena.old proof)) (map_of_premises (map_at arena.old map) (rule_of (tree_at arena.old proof)) (sequent_at arena.old end)) }
    ensures tree { IfOk result (λ n. HasTree arena.new n (sub (tree_at arena.old proof) (map_at arena.old map))) }
    ensures grown { Extends arena.old arena.new }
{
    let rule = rule_image(arena, alloc, map, rule(arena, proof), end)?;
    inference(arena, alloc, rule, end, images)
}

/// The tree of a proof under a map from variables to terms: in each conclusion, and in what the rules name, the variables that the map has
/// are replaced by their terms, all at once. An eigenvariable is bound in the premises of its inference, so the map's binding of it isn't
/// used there. It keeps its name, unless it is free in the new conclusion, and then it becomes the numbered variable of least number that
/// isn't. Formulas of a side that become equal fall together.
///
/// A subtree of whose free variables the map changes none keeps its number. Any other distinct subtree is done once for each choice of the
/// bindings that it needs, as long as the arena lives.
#[cycle(images)]
pub fn substitute_in(
    arena: &mut Arena,
    alloc: Global,
    proof: u32,
    map: u32,
) -> Result<u32, AllocError>
    requires proof { IsTreeAt arena.old proof }
    requires valid { IsValid (tree_at arena.old proof) }
    requires map { IsMapAt arena.old map }
    ensures tree { IfOk result (λ n. HasTree arena.new n (sub (tree_at arena.old proof) (map_at arena.old map))) }
    ensures grown { Extends arena.old arena.new }
{
    let vars = tree_vars(arena, alloc, proof)?;
    if arena.fixes_all(map, vars) {
        return Ok(proof);
    }
    let needed = arena.restrict(alloc, map, vars)?;
    image_once(arena, alloc, proof, needed)
}

// The tree under the map, which is made where the arena hasn't kept it.
#[cycle(images)]
fn image_once(arena: &mut Arena, alloc: Global, proof: u32, map: u32) -> Result<u32, AllocError>
    requires proof { IsTreeAt arena.old proof }
    requires valid { IsValid (tree_at arena.old proof) }
    requires map { IsMapAt arena.old map }
    ensures tree { IfOk result (λ n. HasTree arena.new n (sub (tree_at arena.old proof) (map_at arena.old map))) }
    ensures grown { Extends arena.old arena.new }
{
    let task = Task::TreeImage(map, proof);
    if let Some(number) = arena.look_up(task) {
        return Ok(number);
    }
    let number = image_over(arena, alloc, proof, map)?;
    arena.note(task, number)?;
    Ok(number)
}

// The tree under the map, from its root and the images of the premises.
#[cycle(images)]
fn image_over(arena: &mut Arena, alloc: Global, proof: u32, map: u32) -> Result<u32, AllocError>
    requires proof { IsTreeAt arena.old proof }
    requires valid { IsValid (tree_at arena.old proof) }
    requires map { IsMapAt arena.old map }
    ensures tree { IfOk result (λ n. HasTree arena.new n (sub (tree_at arena.old proof) (map_at arena.old map))) }
    ensures grown { Extends arena.old arena.new }
{
    let end = arena.image_of_sequent(alloc, map, end(arena, proof))?;
    let inner = premise_map(arena, alloc, map, rule(arena, proof), end)?;
    let images = images_below(arena, alloc, proof, premises(arena, proof), inner)?;
    root_image(arena, alloc, proof, map, end, images)
}

// The trees of the premises, whose numbers are below the number `above`, under the map.
#[cycle(images)]
fn images_below(
    arena: &mut Arena,
    alloc: Global,
    above: u32,
    premises: Parts,
    map: u32,
) -> Result<Parts, AllocError>
    requires there { HasPremises arena.old premises }
    requires smaller { ArePartsBelow above premises }
    requires valid { AllValid (trees_at arena.old premises) }
    requires map { IsMapAt arena.old map }
    ensures there { IfOk result (HasPremises arena.new) }
    ensures trees { IfOk result (λ images. trees_at arena.new images ≡ sub_all (trees_at arena.old premises) (map_at arena.old map)) }
    ensures grown { Extends arena.old arena.new }
{
    let _above = above;
    Ok(match premises {
        Parts::Zero => Parts::Zero,
        Parts::One(only) => Parts::One(substitute_in(arena, alloc, only, map)?),
        Parts::Two(first, second) => {
            let first = substitute_in(arena, alloc, first, map)?;
            Parts::Two(first, substitute_in(arena, alloc, second, map)?)
        }
    })
}
