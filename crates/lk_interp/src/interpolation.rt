//! Interpolation.
ghost use Rattle.std.specs.Prelude.{◌≡◌, ◌≢◌, ◌^◌, ◌<◌, true, IfOk, IfErr};
ghost use Rattle.fol.specs.declared.symbols.Var.{Var as Variable};
ghost use Rattle.fol.specs.Syntax.{Pred};
ghost use Rattle.fol.specs.Formed.{IsFormed};
ghost use Rattle.free_variables.specs.Occurrence.{is_free_in, is_pred_in};
ghost use Rattle.substitution.specs.Instance.{nesting};
ghost use Rattle.lk_rules.specs.declared.sequent.Side.TheVariants.{Left, Right};
ghost use Rattle.lk_rules.specs.Sequents.{adds_to, is_free_in_sequent};
ghost use Rattle.proof_trees.specs.Trees.{concl, IsValid, IsCutFree};
ghost use Rattle.proof_trees.specs.Occurrence.{is_pred_in_sequent};
ghost use Rattle.proof_graph.specs.Graphs.{IsOf, history};
ghost use Rattle.interp_laws.specs.Interpolation.{itp};
ghost use Rattle.interp_laws.specs.Parts.{IsFormedSequent, HasParts};
ghost use Rattle.arena_cells.specs.Standing.{Extends as ExtendsArena, tree_at, IsTreeAt};
ghost use Rattle.arena_interp.specs.Partitions.{IsInterpolatedAt, interpolation_at, HasInterpolation};
ghost use Rattle.proof_subst.specs.Benches.{graph_of, pass_in, images_in, arena_in, IsBenchPassOf, Extends};
ghost use Rattle.interp_laws.specs.Interpolating.{interpolating};
ghost use Rattle.lk_interp.specs.Interpolating.{interpolation_of, Interpolates, AreProofs, NamesFormed};

use crate::faults::check;
use arena::Arena;
use arena_interp::{Interpolated, interpolate_in};
use fol::Formula;
use interp_laws::{InterpFault, laws};
use lk_rules::Sequent;
use proof_graph::ProofRef;
use proof_subst::{Bench, BenchPass, number_of, proof_at};
use std::alloc::{AllocError, Global};
use std::sync::Wait;

/// An interpolant of two parts of a proof's end sequent, the proof of the first part with the interpolant on the right, and that of the
/// second part with it on the left.
#[derive(Drop)]
pub struct Interp {
    pub formula: Formula,
    pub first: ProofRef,
    pub second: ProofRef,
}

// The formulas of a sequent are well formed.
fn see_formed(sequent: &Sequent)
    ensures { IsFormedSequent sequent.now }
{
    let _left = sequent.left();
    let _right = sequent.right();
}

// The interpolation of a tree in an arena, by two parts.
fn interpolate_at(
    arena: &mut Arena,
    alloc: Global,
    proof: u32,
    first: &Sequent,
    second: &Sequent,
) -> Result<Interpolated, AllocError>
    requires proof { IsTreeAt arena.old proof }
    requires parts { HasParts (tree_at arena.old proof) first.now second.now }
    ensures made { IfOk result (HasInterpolation arena.new (itp (tree_at arena.old proof) first.now second.now)) }
    ensures small { IfOk result (λ _. nesting (itp (tree_at arena.old proof) first.now second.now).formula < 2 ^ 32) }
    ensures grown { ExtendsArena arena.old arena.new }
{
    let first = arena.import_sequent(alloc, first)?;
    let second = arena.import_sequent(alloc, second)?;
    let made = interpolate_in(arena, alloc, proof, first, second)?;
    let _size = arena.formula(made.formula).size();
    Ok(made)
}

// The interpolation of the tree of a proof, in the arena of the pass.
#[tactic(auto, using(proof_subst::proofs::Passes::pass_stays))]
fn interpolate_tree(
    alloc: Global,
    bench: &Bench,
    pass: &mut BenchPass,
    proof: &ProofRef,
    first: &Sequent,
    second: &Sequent,
) -> Result<Interpolated, AllocError>
    requires pass_of { IsBenchPassOf bench.now pass.old }
    requires of { IsOf (graph_of bench.now) proof.now }
    requires parts { HasParts proof.now.tree first.now second.now }
    ensures made { IfOk result (HasInterpolation (arena_in pass.new) (itp proof.now.tree first.now second.now)) }
    ensures small { IfOk result (λ _. nesting (itp proof.now.tree first.now second.now).formula < 2 ^ 32) }
    ensures graph_stays { pass_in pass.new ≡ pass_in pass.old }
    ensures images_stay { images_in pass.new ≡ images_in pass.old }
    ensures pass_stays { IsBenchPassOf bench.now pass.new }
{
    let number = number_of(alloc, bench, pass, proof)?;
    interpolate_at(Bench::arena(pass), alloc, number, first, second)
}

// The references of an interpolation's trees in the arena of the pass.
fn export<R: Wait>(
    rt: &R,
    alloc: Global,
    bench: &Bench,
    pass: &mut BenchPass,
    made: Interpolated,
) -> Result<Interp, AllocError>
    requires pass_of { IsBenchPassOf bench.now pass.old }
    requires there { IsInterpolatedAt (arena_in pass.old) made }
    requires valid { AreProofs (interpolation_at (arena_in pass.old) made) }
    ensures interpolation { IfOk result (λ r. interpolation_of r ≡ interpolation_at (arena_in pass.old) made) }
    ensures of { IfOk result (λ r. IsOf (graph_of bench.now) r.first × IsOf (graph_of bench.now) r.second) }
    ensures images_stay { images_in pass.new ≡ images_in pass.old }
    ensures extends { Extends bench.now pass.old pass.new }
{
    let formula = Bench::arena(pass).formula(made.formula).copy()?;
    let first = proof_at(rt, alloc, bench, pass, made.first)?;
    let second = proof_at(rt, alloc, bench, pass, made.second)?;
    Ok(Interp {
        formula,
        first,
        second,
    })
}

/// The interpolant of a proof without cuts, after Maehara (1960), as in Takeuti's Proof Theory, by two parts that make up its end sequent. A
/// formula may be in both parts: the rule that introduces it then counts to the first part. Each predicate symbol of the interpolant is one
/// of both parts, and so is each variable that is free in it; nothing is said of function symbols. It comes with proofs without cuts of the
/// first part with the interpolant on the right, and of the second part with it on the left.
///
/// The faults come in this order, and the first is answered: `Cut` with the place of the first cut among the proof's steps; `Defined` with
/// the first formula of the end sequent, left before right, in which a predicate symbol has a body; `Partition` where the union of the parts
/// isn't the end sequent, with the least formula that is on the left of just one of them, else on the right; `Budget` where the proof's
/// tree has more nodes than the budget allows. Only `Memory` may leave new nodes in the graph.
pub fn interpolate<R: Wait>(
    rt: &R,
    alloc: Global,
    bench: &Bench,
    pass: &mut BenchPass,
    proof: &ProofRef,
    first: &Sequent,
    second: &Sequent,
    budget: u64,
) -> Result<Interp, InterpFault>
    requires pass_of { IsBenchPassOf bench.now pass.old }
    requires of { IsOf (graph_of bench.now) proof.now }
    // It is the interpolation, or the first fault, unless memory runs out.
    ensures exact { Interpolates result (interpolating proof.now.tree first.now second.now budget) }
    ensures valid { IfOk result (λ made. IsValid made.first.tree × IsValid made.second.tree) }
    ensures cut_free { IfOk result (λ made. IsCutFree made.first.tree × IsCutFree made.second.tree) }
    ensures ends { IfOk result (λ made. (concl made.first.tree ≡ adds_to first.now Right made.formula) × (concl made.second.tree ≡ adds_to second.now Left made.formula)) }
    ensures predicates { (q : Pred) → IfOk result (λ made. is_pred_in q made.formula ≡ true → (is_pred_in_sequent q first.now ≡ true) × (is_pred_in_sequent q second.now ≡ true)) }
    ensures variables { (v : Variable) → IfOk result (λ made. is_free_in v made.formula ≡ true → (is_free_in_sequent v first.now ≡ true) × (is_free_in_sequent v second.now ≡ true)) }
    ensures formed { IfOk result (λ made. IsFormed made.formula) }
    ensures named { IfErr result NamesFormed }
    ensures of { IfOk result (λ made. IsOf (graph_of bench.now) made.first × IsOf (graph_of bench.now) made.second) }
    ensures unchanged { IfErr result (λ fault. fault ≢ InterpFault.Memory → history (pass_in pass.new) ≡ history (pass_in pass.old)) }
    ensures images_stay { images_in pass.new ≡ images_in pass.old }
    ensures extends { Extends bench.now pass.old pass.new }
{
    proof.known();
    see_formed(first);
    see_formed(second);
    laws::interpolations();
    interp_laws::laws::proofs();
    interp_laws::laws::interpolants();
    check(bench.graph(), alloc, proof, first, second, budget)?;
    let made = interpolate_tree(alloc, bench, pass, proof, first, second)?;
    Ok(export(rt, alloc, bench, pass, made)?)
}
