//! Proofs with all defined predicate symbols unfolded.
ghost use Rattle.std.specs.Prelude.{◌≡◌, IfOk, IfSome, IfNone, OnSome};
ghost use Rattle.proof_trees.specs.Trees.{concl, IsValid, cuts as cuts_of, quants as quants_of};
ghost use Rattle.proof_trees.specs.Conclusions.{EachNode};
ghost use Rattle.proof_graph.specs.Graphs.{IsOf};
ghost use Rattle.arena_cells.specs.Standing.{Extends as ExtendsArena, HasTree, tree_at, IsTreeAt, IsDistinct};
ghost use Rattle.proof_subst.specs.Benches.{graph_of, pass_in, images_in, arena_in, IsBenchPassOf, Extends};
ghost use Rattle.def_laws.specs.Flat.{flat_sequent};
ghost use Rattle.def_laws.specs.Unfolded.{unfolded, HasNoBody};
ghost use Rattle.arena_flat.specs.Short.{HasShortRules, HasShortSides};

use arena::Arena;
use arena_copy::copy_tree;
use arena_flat::unfold_tree;
use def_laws::laws;
use proof_graph::ProofRef;
use proof_subst::{Bench, BenchPass, number_of, proof_at};
use std::alloc::{AllocError, Global};
use std::sync::Wait;

// The number of the tree with all unfolded, which is made in an arena of its own and then put into that of the pass; nothing where no symbol
// in the tree has a body.
fn flat_number(
    alloc: Global,
    bench: &Bench,
    pass: &mut BenchPass,
    number: u32,
) -> Result<Option<u32>, AllocError>
    requires pass_of { IsBenchPassOf bench.now pass.old }
    requires there { IsTreeAt (arena_in pass.old) number }
    ensures tree { IfOk result (λ made. IfSome made (λ n. HasTree (arena_in pass.new) n (unfolded (tree_at (arena_in pass.old) number)))) }
    ensures plain { IfOk result (λ made. IfNone made (EachNode HasNoBody (tree_at (arena_in pass.old) number))) }
    ensures short { IfOk result (λ made. OnSome made (HasShortRules (tree_at (arena_in pass.old) number))) }
    ensures end { HasShortSides (concl (tree_at (arena_in pass.old) number)) }
    ensures distinct { IfOk result (λ made. OnSome made (IsDistinct (arena_in pass.new))) }
    ensures arena { ExtendsArena (arena_in pass.old) (arena_in pass.new) }
    ensures graph_stays { pass_in pass.new ≡ pass_in pass.old }
    ensures images_stay { images_in pass.new ≡ images_in pass.old }
    ensures pass_stays { IsBenchPassOf bench.now pass.new }
{
    let _bench = bench;
    let mut scratch = Arena::new(alloc);
    let arena = Bench::arena(pass);
    let Some(flat) = unfold_tree(alloc, arena, &mut scratch, number)? else {
        return Ok(None);
    };
    let copied = copy_tree(alloc, &scratch, arena, flat)?;
    arena.known();
    Ok(Some(copied))
}

/// The proof with all defined predicate symbols unfolded: in each conclusion, and in what the rules name, each atom whose symbol has a body is
/// replaced by what it stands for, in bodies too. A rule that unfolds an atom becomes weakening, since the atom and its unfolding fall
/// together, as other formulas of a side may. A proof in which no symbol has a body stays the very node that it is.
///
/// Each distinct formula, side and subtree is worked on once. Where an index would not fit, or a formula would be too large, it is want of
/// memory.
pub fn flatten<R: Wait>(
    rt: &R,
    alloc: Global,
    bench: &Bench,
    pass: &mut BenchPass,
    proof: &ProofRef,
) -> Result<ProofRef, AllocError>
    requires pass_of { IsBenchPassOf bench.now pass.old }
    requires of { IsOf (graph_of bench.now) proof.now }
    ensures tree { IfOk result (λ p. p.tree ≡ unfolded proof.now.tree) }
    ensures of { IfOk result (IsOf (graph_of bench.now)) }
    ensures valid { IfOk result (λ p. IsValid p.tree) }
    ensures end { IfOk result (λ p. concl p.tree ≡ flat_sequent (concl proof.now.tree)) }
    ensures cuts { IfOk result (λ p. cuts_of p.tree ≡ cuts_of proof.now.tree) }
    ensures quants { IfOk result (λ p. quants_of p.tree ≡ quants_of proof.now.tree) }
    ensures none_left { IfOk result (λ p. EachNode HasNoBody p.tree) }
    ensures unchanged { EachNode HasNoBody proof.now.tree → IfOk result (λ p. p ≡ proof.now) }
    ensures images_stay { images_in pass.new ≡ images_in pass.old }
    ensures extends { Extends bench.now pass.old pass.new }
{
    let flat = flatten_known(rt, alloc, bench, pass, proof)?;
    laws::unfolded_trees();
    flat.known();
    Ok(flat)
}

// The same, of which less is said.
fn flatten_known<R: Wait>(
    rt: &R,
    alloc: Global,
    bench: &Bench,
    pass: &mut BenchPass,
    proof: &ProofRef,
) -> Result<ProofRef, AllocError>
    requires pass_of { IsBenchPassOf bench.now pass.old }
    requires of { IsOf (graph_of bench.now) proof.now }
    ensures tree { IfOk result (λ p. p.tree ≡ unfolded proof.now.tree) }
    ensures of { IfOk result (IsOf (graph_of bench.now)) }
    ensures unchanged { EachNode HasNoBody proof.now.tree → IfOk result (λ p. p ≡ proof.now) }
    ensures images_stay { images_in pass.new ≡ images_in pass.old }
    ensures extends { Extends bench.now pass.old pass.new }
{
    proof.known();
    let number = number_of(alloc, bench, pass, proof)?;
    let Some(flat) = flat_number(alloc, bench, pass, number)? else {
        return proof.keep();
    };
    if flat == number {
        return proof.keep();
    }
    proof_at(rt, alloc, bench, pass, flat)
}
