//! Trees under maps.
ghost use Rattle.std.specs.Prelude.{◌≡◌, true, IfOk, OnOk, IfSome, IsSome};
ghost use Rattle.std.specs.FinMap as fin;
ghost use mathlib.Core.List.{IsPrefix};
ghost use Rattle.fol.specs.declared.symbols.Var.{Var as Variable};
ghost use Rattle.fol.specs.Syntax.{free};
ghost use Rattle.substitution.specs.Image.{image_term, IsFormedMap};
ghost use Rattle.lk_rules.specs.Sequents.{image_sequent};
ghost use Rattle.proof_trees.specs.Trees.{concl, IsValid};
ghost use Rattle.proof_trees.specs.FreeVariables.{is_free_in_tree};
ghost use Rattle.proof_trees.specs.Substitution.{sub};
ghost use Rattle.proof_graph.specs.Graphs.{IsOf, Makes};
ghost use Rattle.arena_cells.specs.Standing.{Extends as ExtendsArena, HasTree, tree_at, IsTreeAt};
ghost use Rattle.proof_subst.specs.Benches.{graph_of, pass_in, images_in, arena_in, HasImage, IsBenchPassOf, Extends};
ghost use Rattle.proof_subst.specs.Images.{IsImageOf};

use crate::bench::{Bench, BenchPass};
use crate::known::{Image, ImageKey};
use crate::numbers::{number_of, proof_at};
use arena_subst::substitute_in;
use proof_graph::ProofRef;
use std::alloc::{AllocError, Global};
use std::sync::Wait;
use substitution::Subst;

// The number of the tree under the map.
fn image_of(
    alloc: Global,
    bench: &Bench,
    pass: &mut BenchPass,
    number: u32,
    map: &Subst,
) -> Result<u32, AllocError>
    requires pass_of { IsBenchPassOf bench.now pass.old }
    requires there { IsTreeAt (arena_in pass.old) number }
    requires valid { IsValid (tree_at (arena_in pass.old) number) }
    ensures tree { IfOk result (λ n. HasTree (arena_in pass.new) n (sub (tree_at (arena_in pass.old) number) map.now)) }
    ensures arena { ExtendsArena (arena_in pass.old) (arena_in pass.new) }
    ensures graph_stays { pass_in pass.new ≡ pass_in pass.old }
    ensures images_stay { images_in pass.new ≡ images_in pass.old }
    ensures pass_stays { IsBenchPassOf bench.now pass.new }
{
    let _bench = bench;
    let map = pass.arena.import_map(alloc, map)?;
    substitute_in(&mut pass.arena, alloc, number, map)
}

// The image of a proof under a map, by way of the arena.
fn compute<R: Wait>(
    rt: &R,
    alloc: Global,
    bench: &Bench,
    pass: &mut BenchPass,
    proof: &ProofRef,
    map: &Subst,
) -> Result<ProofRef, AllocError>
    requires pass_of { IsBenchPassOf bench.now pass.old }
    requires of { IsOf (graph_of bench.now) proof.now }
    requires map { IsFormedMap (fin.get map.now) }
    ensures made { IfOk result (Makes (graph_of bench.now) (sub proof.now.tree map.now)) }
    ensures kept { ((v : Variable) → is_free_in_tree v proof.now.tree ≡ true → image_term (fin.get map.now) (free v) ≡ free v) → IfOk result (λ r. r ≡ proof.now) }
    ensures images_stay { images_in pass.new ≡ images_in pass.old }
    ensures extends { Extends bench.now pass.old pass.new }
{
    proof.known();
    let number = number_of(alloc, bench, pass, proof)?;
    let image = image_of(alloc, bench, pass, number, map)?;
    pass.arena.known();
    if image == number {
        return proof.keep();
    }
    proof_at(rt, alloc, bench, pass, image)
}

// The image of a proof under a map, where the table has it. `same` shows that what is found is of this very proof.
fn look_up<R: Wait>(
    rt: &R,
    alloc: Global,
    bench: &Bench,
    pass: &mut BenchPass,
    proof: &ProofRef,
    key: &ImageKey,
) -> Result<Option<ProofRef>, AllocError>
    requires pass_of { IsBenchPassOf bench.now pass.old }
    requires of { IsOf (graph_of bench.now) proof.now }
    requires number { key.now.proof ≡ proof.now.number }
    ensures image { IfOk result (λ o. IfSome o (IsImageOf (graph_of bench.now) proof.now key.now.map)) }
    ensures stands { IfOk result (λ o. IsSome o → HasImage pass.new key.now.proof key.now.map) }
    ensures images_grown { IsPrefix (images_in pass.old) (images_in pass.new) }
    ensures graph_stays { pass_in pass.new ≡ pass_in pass.old }
    ensures pass_stays { IsBenchPassOf bench.now pass.new }
{
    let graph = bench.graph();
    match bench.images.find(rt, alloc, &mut pass.images, graph, key)? {
        Some(found) if graph.same(&found.proof, proof) => Ok(Some(found.image)),
        _ => Ok(None),
    }
}

// Enters the image of a proof under a map.
fn note<R: Wait>(
    rt: &R,
    bench: &Bench,
    pass: &mut BenchPass,
    proof: &ProofRef,
    key: ImageKey,
    image: &ProofRef,
) -> Result<(), AllocError>
    requires pass_of { IsBenchPassOf bench.now pass.old }
    requires of { IsOf (graph_of bench.now) proof.now }
    requires number { key.proof ≡ proof.now.number }
    requires image { IsImageOf (graph_of bench.now) proof.now key.map image.now }
    ensures stands { OnOk result (HasImage pass.new key.proof key.map) }
    ensures images_grown { IsPrefix (images_in pass.old) (images_in pass.new) }
    ensures graph_stays { pass_in pass.new ≡ pass_in pass.old }
    ensures pass_stays { IsBenchPassOf bench.now pass.new }
{
    let known = Image {
        proof: proof.keep()?,
        image: image.keep()?,
    };
    bench.images.note(rt, &mut pass.images, key, known)
}

/// The tree of a proof under a map from variables to well-formed terms: in each conclusion, and in what the rules name, the variables that
/// the map has are replaced by their terms, all at once. An eigenvariable is bound in the premises of its inference, so the map's binding
/// of it isn't used there. It keeps its name, unless it is free in the new conclusion, and then it becomes the numbered variable of least
/// number that isn't. Formulas of a side that become equal fall together.
///
/// A proof of whose free variables the map changes none stays the very node that it is, and so does each such subtree. Any other distinct
/// subtree is done once for each choice of the bindings that it needs, with one look-up by the numbers, beside the work on formulas and on
/// sets of variables. The pass keeps what was found of each subtree that was looked at, its free variables and its
/// images, so a map that leaves a proof as it is costs a few look-ups where an earlier map has been there.
///
/// The image is noted in the table of the bench: the same proof under the same map costs one look-up there, in each thread and for as long
/// as the bench stands.
pub fn substitute<R: Wait>(
    rt: &R,
    alloc: Global,
    bench: &Bench,
    pass: &mut BenchPass,
    proof: &ProofRef,
    map: &Subst,
) -> Result<ProofRef, AllocError>
    requires pass_of { IsBenchPassOf bench.now pass.old }
    requires of { IsOf (graph_of bench.now) proof.now }
    requires map { IsFormedMap (fin.get map.now) }
    ensures made { IfOk result (Makes (graph_of bench.now) (sub proof.now.tree map.now)) }
    ensures valid { IfOk result (λ r. IsValid r.tree) }
    ensures end { IfOk result (λ r. concl r.tree ≡ image_sequent (fin.get map.now) (concl proof.now.tree)) }
    ensures kept { ((v : Variable) → is_free_in_tree v proof.now.tree ≡ true → image_term (fin.get map.now) (free v) ≡ free v) → IfOk result (λ r. r ≡ proof.now) }
    ensures noted { IfOk result (λ _. HasImage pass.new proof.now.number map.now) }
    ensures images_grown { IsPrefix (images_in pass.old) (images_in pass.new) }
    ensures extends { Extends bench.now pass.old pass.new }
{
    let key = ImageKey {
        proof: proof.number(),
        map: map.copy(alloc)?,
    };
    if let Some(known) = look_up(rt, alloc, bench, pass, proof, &key)? {
        known.known();
        return Ok(known);
    }
    let image = compute(rt, alloc, bench, pass, proof, map)?;
    image.known();
    note(rt, bench, pass, proof, key, &image)?;
    Ok(image)
}
