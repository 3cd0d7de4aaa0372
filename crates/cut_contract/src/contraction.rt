//! The contraction of a cut.
ghost use Rattle.std.specs.Prelude.{◌≡◌, ◌+◌, IfOk};
ghost use Rattle.fol.specs.Syntax.{Formula as Sentence};
ghost use Rattle.lk_rules.specs.declared.sequent.Sequent.{Sequent as Conclusion};
ghost use Rattle.proof_trees.specs.Trees.{Tree as Proof, concl, IsValid};
ghost use Rattle.proof_graph.specs.Graphs.{IsOf};
ghost use Rattle.proof_subst.specs.Benches.{graph_of, pass_in, images_in, arena_in, IsBenchPassOf, Extends};
ghost use Rattle.cut_laws.specs.Contraction.{cut as cut_tree, con};
ghost use Rattle.arena_cells.specs.Standing.{Extends as ExtendsArena, HasTree, tree_at, IsTreeAt};
ghost use Rattle.proof_trees.specs.Conclusions.{HasFormedEnd};
ghost use Rattle.cut_contract.specs.LowestCuts.{IsLowestCut, contracted};

use arena::{Arena, Parts, RuleKey};
use arena_cuts::{Steps, contract_in};
use arena_proofs::{end, premises, rule};
use cut_laws::laws;
use proof_graph::ProofRef;
use proof_subst::{Bench, BenchPass, number_of, proof_at};
use std::alloc::{AllocError, Global};
use std::sync::Wait;
use std::sync::ledger::Ledger;

// What takes the place of the cut at a number of an arena.
fn contract_number<L: Ledger>(
    arena: &mut Arena,
    alloc: Global,
    cut: u32,
    steps: &mut Steps<L>,
) -> Result<u32, AllocError>
    requires there { IsTreeAt arena.old cut }
    requires valid { IsValid (tree_at arena.old cut) }
    requires cut { IsLowestCut (tree_at arena.old cut) }
    ensures tree { IfOk result (λ n. HasTree arena.new n (contracted (tree_at arena.old cut))) }
    ensures grown { ExtendsArena arena.old arena.new }
    ensures counted { steps.new ≡ steps.old + 1 }
{
    let RuleKey::Cut(formula) = rule(arena, cut) else {
        unreachable!()
    };
    let Parts::Two(left, right) = premises(arena, cut) else {
        unreachable!()
    };
    let end = end(arena, cut);
    contract_in(arena, alloc, end, formula, left, right, steps)
}

// What takes the place of the cut that a proof ends with, in the arena of the pass. Where memory is wanting for the proof itself this is a step
// too.
#[tactic(auto, using(proof_subst::proofs::Passes::pass_stays))]
fn contract_tree<L: Ledger>(
    alloc: Global,
    bench: &Bench,
    pass: &mut BenchPass,
    proof: &ProofRef,
    steps: &mut Steps<L>,
) -> Result<u32, AllocError>
    requires pass_of { IsBenchPassOf bench.now pass.old }
    requires of { IsOf (graph_of bench.now) proof.now }
    requires cut { IsLowestCut proof.now.tree }
    ensures tree { IfOk result (λ n. HasTree (arena_in pass.new) n (contracted proof.now.tree)) }
    ensures formed { IfOk result (λ _. HasFormedEnd proof.now.tree) }
    ensures graph_stays { pass_in pass.new ≡ pass_in pass.old }
    ensures images_stay { images_in pass.new ≡ images_in pass.old }
    ensures pass_stays { IsBenchPassOf bench.now pass.new }
    ensures counted { steps.new ≡ steps.old + 1 }
{
    proof.known();
    let Ok(number) = number_of(alloc, bench, pass, proof) else {
        steps.tick();
        return Err(AllocError);
    };
    contract_number(Bench::arena(pass), alloc, number, steps)
}

/// The contraction of a cut whose premises have no cut, after Gentzen (1935): cuts that stand higher or are on smaller formulas take its
/// place, or none. The conclusion stays. It is one step, also where memory is wanting.
pub fn contract<R: Wait, L: Ledger>(
    rt: &R,
    alloc: Global,
    bench: &Bench,
    pass: &mut BenchPass,
    proof: &ProofRef,
    steps: &mut Steps<L>,
) -> Result<ProofRef, AllocError>
    requires pass_of { IsBenchPassOf bench.now pass.old }
    requires of { IsOf (graph_of bench.now) proof.now }
    requires cut { IsLowestCut proof.now.tree }
    ensures tree { IfOk result (λ made. (s : Conclusion) (a : Sentence) (l r : Proof) → proof.now.tree ≡ cut_tree s a l r → made.tree ≡ con s a l r) }
    ensures end { IfOk result (λ made. concl made.tree ≡ concl proof.now.tree) }
    ensures of { IfOk result (IsOf (graph_of bench.now)) }
    ensures images_stay { images_in pass.new ≡ images_in pass.old }
    ensures extends { Extends bench.now pass.old pass.new }
    ensures counted { steps.new ≡ steps.old + 1 }
{
    laws::contraction();
    proof.known();
    let number = contract_tree(alloc, bench, pass, proof, steps)?;
    proof_at(rt, alloc, bench, pass, number)
}
