//! Proofs by the numbers of their trees in the arena of a pass.
ghost use Rattle.std.specs.Prelude.{◌≡◌, ◌≤◌, ◌^◌, length, IfOk};
ghost use Rattle.proof_trees.specs.Trees.{IsValid};
ghost use Rattle.proof_graph.specs.Graphs.{IsOf, Makes};
ghost use Rattle.arena_cells.specs.Standing.{HasTree, tree_at, IsTreeAt};
ghost use Rattle.proof_trees.specs.Conclusions.{HasFormedEnd};
ghost use Rattle.proof_subst.specs.Benches.{graph_of, pass_in, images_in, arena_in, IsBenchPassOf, Extends};

use crate::bench::{Bench, BenchPass};
use arena::Arena;
use arena_graph::{ProofNumbers, export_proof, import_proof};
use proof_graph::ProofRef;
use std::alloc::{AllocError, Global};
use std::sync::Wait;

// The most things that an arena may have when a transformation begins: they take some 30 megabytes.
const MOST_KEPT: usize = 262144;

/// Gives up the arena of a pass that has come to hold more than 2^18 things: what a transformation leaves behind is found again by later ones,
/// but takes bounded room. An arena of at most so many stays as it is.
pub fn make_room(alloc: Global, bench: &Bench, pass: &mut BenchPass)
    requires { IsBenchPassOf bench.now pass.old }
    ensures bounded { length (arena_in pass.new) ≤ 2 ^ 18 }
    ensures kept { length (arena_in pass.old) ≤ 2 ^ 18 → arena_in pass.new ≡ arena_in pass.old }
    ensures graph_stays { pass_in pass.new ≡ pass_in pass.old }
    ensures images_stay { images_in pass.new ≡ images_in pass.old }
    ensures pass_stays { IsBenchPassOf bench.now pass.new }
{
    let _bench = bench;
    if pass.arena.len() > MOST_KEPT {
        pass.numbers = ProofNumbers::new(alloc);
        pass.arena = Arena::new(alloc);
    }
}

/// The number of a proof's tree in the arena of the pass, where an arena of more than 2^18 things is given up first: a transformation begins
/// with it. A proof that came in or went out before costs one look-up, unless its arena was given up.
pub fn number_of(
    alloc: Global,
    bench: &Bench,
    pass: &mut BenchPass,
    proof: &ProofRef,
) -> Result<u32, AllocError>
    requires pass_of { IsBenchPassOf bench.now pass.old }
    requires of { IsOf (graph_of bench.now) proof.now }
    ensures tree { IfOk result (λ n. HasTree (arena_in pass.new) n proof.now.tree) }
    ensures formed { IfOk result (λ _. HasFormedEnd proof.now.tree) }
    ensures graph_stays { pass_in pass.new ≡ pass_in pass.old }
    ensures images_stay { images_in pass.new ≡ images_in pass.old }
    ensures pass_stays { IsBenchPassOf bench.now pass.new }
{
    make_room(alloc, bench, pass);
    import_proof(
        alloc,
        bench.graph(),
        &mut pass.arena,
        &mut pass.numbers,
        proof,
    )
}

/// The reference in the graph of a valid tree in the arena of the pass, whose end sequent has well-formed formulas.
pub fn proof_at<R: Wait>(
    rt: &R,
    alloc: Global,
    bench: &Bench,
    pass: &mut BenchPass,
    number: u32,
) -> Result<ProofRef, AllocError>
    requires pass_of { IsBenchPassOf bench.now pass.old }
    requires there { IsTreeAt (arena_in pass.old) number }
    requires valid { IsValid (tree_at (arena_in pass.old) number) }
    requires formed { HasFormedEnd (tree_at (arena_in pass.old) number) }
    ensures made { IfOk result (Makes (graph_of bench.now) (tree_at (arena_in pass.old) number)) }
    ensures arena_stays { arena_in pass.new ≡ arena_in pass.old }
    ensures images_stay { images_in pass.new ≡ images_in pass.old }
    ensures extends { Extends bench.now pass.old pass.new }
{
    export_proof(
        rt,
        alloc,
        bench.graph(),
        &mut pass.graph,
        &pass.arena,
        &mut pass.numbers,
        number,
    )
}
