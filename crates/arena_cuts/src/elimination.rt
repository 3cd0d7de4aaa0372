//! The elimination of cuts.
ghost use Rattle.std.specs.Prelude.{◌≡◌, ◌+◌, ◌<◌, ◌≤◌, true, false, nat_eq, Some, None, is_some, IfOk};
ghost use Rattle.std.specs.HashMap as hash;
ghost use Rattle.proof_trees.specs.Trees.{none, more, rule_of, is_cut, IsValid, AllValid};
ghost use Rattle.cut_laws.specs.Elimination.{elimination};
ghost use Rattle.cut_laws.specs.Budgets.{contracted, elimination_all};
ghost use Rattle.arena_cells.specs.Standing.{Extends, sequent_at, formula_at, tree_at, IsSequentAt, IsFormulaAt, IsTreeAt};
ghost use Rattle.arena_cells.specs.Meaning.{trees_at, HasPremises};
ghost use Rattle.arena_cuts.specs.CutNumbers.{IsCutAt, cut_at};
ghost use Rattle.arena_cuts.specs.Tables.{AreEliminated, AreFree};
ghost use Rattle.arena_cuts.specs.Pairs.{AreBoth};

use crate::contraction::contract_in;
use crate::cut::Cut;
use crate::fault::ElimFault;
use crate::steps::Steps;
use crate::table::{Reduced, look_up, note};
use arena::{Arena, Parts, RuleKey};
use arena_proofs::{end, inference, premises, rule};
use cut_laws::laws;
use number_hash::ByNumber;
use std::alloc::Global;
use std::collections::HashMap;
use std::sync::ledger::Ledger;

// The numbers of proofs without cuts, and how many contractions led to all of them.
#[derive(Clone, Copy, Drop)]
pub(crate) struct Several {
    pub proofs: Parts,
    pub reductions: u64,
}

// What becomes of two proofs, the right one after the left one.
#[derive(Clone, Copy, Drop)]
pub(crate) struct Both {
    pub left: Reduced,
    pub right: Reduced,
}

/// The elimination in a proof of an arena: the proof without cuts that is reached when the first cut in post-order, premises from left to
/// right, gives way to its contraction until no cut is left. The budget bounds the number of contractions, and `Budget` is answered where a
/// cut is left after so many. The table has the eliminations that are known, by the numbers of their proofs: each distinct proof is worked
/// on once, as far as the budget goes, so fewer contractions may be made than are counted in the answer; `steps` counts those that are made.
#[cycle(eliminate)]
pub fn eliminate_in<L: Ledger>(
    arena: &mut Arena,
    alloc: Global,
    table: &mut HashMap<u32, Reduced, ByNumber>,
    proof: u32,
    budget: u64,
    steps: &mut Steps<L>,
) -> Result<Reduced, ElimFault>
    requires proof { IsTreeAt arena.old proof }
    requires valid { IsValid (tree_at arena.old proof) }
    requires table { AreEliminated arena.old table.old }
    ensures there { IfOk result (λ made. IsTreeAt arena.new made.proof) }
    ensures ok { IfOk result (λ made. elimination (tree_at arena.old proof) budget ≡ Some (tree_at arena.new made.proof, made.reductions)) }
    ensures budget { result ≡ Err ElimFault.Budget → elimination (tree_at arena.old proof) budget ≡ None }
    ensures table { AreEliminated arena.new table.new }
    ensures grown { Extends arena.old arena.new }
    ensures counted_ok { IfOk result (λ made. steps.new ≤ steps.old + made.reductions) }
    ensures counted { steps.new ≤ steps.old + budget }
    ensures rises { steps.old ≤ steps.new }

    // Where the table tells of no contraction, one is counted at least for an answer that took some.
    ensures least { AreFree table.old → steps.new ≡ steps.old → AreFree table.new × IfOk result (λ made. made.reductions ≡ 0) }

    // So no proof is worked on whose elimination is known, wherever it stands.
    ensures known { is_some (hash.get nat_eq table.old proof) ≡ true → (table.new ≡ table.old) × (arena.new ≡ arena.old) × (steps.new ≡ steps.old) }
{
    if let Some(known) = look_up(arena, table, proof, budget) {
        return known;
    }
    laws::budgets();
    let made = match eliminate_root(arena, alloc, table, proof, budget, steps) {
        Ok(made) => made,
        Err(fault) => return Err(fault),
    };
    match note(arena, table, proof, made) {
        Ok(()) => Ok(made),
        Err(_) => Err(ElimFault::Memory),
    }
}

// The elimination in a proof, by its last rule.
#[cycle(eliminate)]
fn eliminate_root<L: Ledger>(
    arena: &mut Arena,
    alloc: Global,
    table: &mut HashMap<u32, Reduced, ByNumber>,
    proof: u32,
    budget: u64,
    steps: &mut Steps<L>,
) -> Result<Reduced, ElimFault>
    requires proof { IsTreeAt arena.old proof }
    requires valid { IsValid (tree_at arena.old proof) }
    requires table { AreEliminated arena.old table.old }
    ensures there { IfOk result (λ made. IsTreeAt arena.new made.proof) }
    ensures ok { IfOk result (λ made. elimination (tree_at arena.old proof) budget ≡ Some (tree_at arena.new made.proof, made.reductions)) }
    ensures budget { result ≡ Err ElimFault.Budget → elimination (tree_at arena.old proof) budget ≡ None }
    ensures table { AreEliminated arena.new table.new }
    ensures grown { Extends arena.old arena.new }
    ensures counted_ok { IfOk result (λ made. steps.new ≤ steps.old + made.reductions) }
    ensures counted { steps.new ≤ steps.old + budget }
    ensures rises { steps.old ≤ steps.new }
    ensures least { AreFree table.old → steps.new ≡ steps.old → AreFree table.new × IfOk result (λ made. made.reductions ≡ 0) }
{
    let RuleKey::Cut(formula) = rule(arena, proof) else {
        return eliminate_other(arena, alloc, table, proof, budget, steps);
    };
    let Parts::Two(left, right) = premises(arena, proof) else {
        unreachable!()
    };
    let cut = Cut {
        end: end(arena, proof),
        formula,
        left,
        right,
    };
    eliminate_cut(arena, alloc, table, cut, budget, steps)
}

// The elimination in a cut: first in its left premise, then in the right one, and then in what takes its place.
#[cycle(eliminate)]
fn eliminate_cut<L: Ledger>(
    arena: &mut Arena,
    alloc: Global,
    table: &mut HashMap<u32, Reduced, ByNumber>,
    cut: Cut,
    budget: u64,
    steps: &mut Steps<L>,
) -> Result<Reduced, ElimFault>
    requires cut { IsCutAt arena.old cut }
    requires valid { IsValid (cut_at arena.old cut) }
    requires table { AreEliminated arena.old table.old }
    ensures there { IfOk result (λ made. IsTreeAt arena.new made.proof) }
    ensures ok { IfOk result (λ made. elimination (cut_at arena.old cut) budget ≡ Some (tree_at arena.new made.proof, made.reductions)) }
    ensures budget { result ≡ Err ElimFault.Budget → elimination (cut_at arena.old cut) budget ≡ None }
    ensures table { AreEliminated arena.new table.new }
    ensures grown { Extends arena.old arena.new }
    ensures counted_ok { IfOk result (λ made. steps.new ≤ steps.old + made.reductions) }
    ensures counted { steps.new ≤ steps.old + budget }
    ensures rises { steps.old ≤ steps.new }
    ensures least { AreFree table.old → steps.new ≡ steps.old → AreFree table.new × IfOk result (λ made. made.reductions ≡ 0) }
{
    laws::big_steps();
    laws::falling_work();
    laws::results();
    let both = match eliminate_both(arena, alloc, table, cut.left, cut.right, budget, steps) {
        Ok(both) => both,
        Err(fault) => return Err(fault),
    };
    let above = both.left.reductions + both.right.reductions;
    if above == budget {
        return Err(ElimFault::Budget);
    }
    let lowest = Cut {
        end: cut.end,
        formula: cut.formula,
        left: both.left.proof,
        right: both.right.proof,
    };
    let last = match eliminate_lowest(arena, alloc, table, lowest, budget - above, steps) {
        Ok(last) => last,
        Err(fault) => return Err(fault),
    };
    Ok(Reduced {
        proof: last.proof,
        reductions: above + last.reductions,
    })
}

// The contraction of a cut, and the elimination in what takes its place.
#[cycle(eliminate)]
fn eliminate_lowest<L: Ledger>(
    arena: &mut Arena,
    alloc: Global,
    table: &mut HashMap<u32, Reduced, ByNumber>,
    cut: Cut,
    budget: u64,
    steps: &mut Steps<L>,
) -> Result<Reduced, ElimFault>
    requires cut { IsCutAt arena.old cut }
    requires valid { IsValid (cut_at arena.old cut) }
    requires table { AreEliminated arena.old table.old }
    requires budget { 0 < budget }
    ensures there { IfOk result (λ made. IsTreeAt arena.new made.proof) }
    ensures ok { IfOk result (λ made. contracted (sequent_at arena.old cut.end) (formula_at arena.old cut.formula) (tree_at arena.old cut.left) (tree_at arena.old cut.right) budget ≡ Some (tree_at arena.new made.proof, made.reductions)) }
    ensures within { IfOk result (λ made. made.reductions ≤ budget) }
    ensures budget { result ≡ Err ElimFault.Budget → contracted (sequent_at arena.old cut.end) (formula_at arena.old cut.formula) (tree_at arena.old cut.left) (tree_at arena.old cut.right) budget ≡ None }
    ensures table { AreEliminated arena.new table.new }
    ensures grown { Extends arena.old arena.new }
    ensures counted_ok { IfOk result (λ made. steps.new ≤ steps.old + made.reductions) }
    ensures counted { steps.new ≤ steps.old + budget }
    ensures rises { steps.old < steps.new }
{
    laws::budgets();
    cut_laws::laws::contraction();
    let Ok(made) = contract_in(
        arena,
        alloc,
        cut.end,
        cut.formula,
        cut.left,
        cut.right,
        steps,
    ) else {
        return Err(ElimFault::Memory);
    };
    let last = match eliminate_in(arena, alloc, table, made, budget - 1, steps) {
        Ok(last) => last,
        Err(fault) => return Err(fault),
    };
    Ok(Reduced {
        proof: last.proof,
        reductions: 1 + last.reductions,
    })
}

// The elimination in a proof whose last rule is no cut. Where its premises have no cut it is the proof itself.
#[cycle(eliminate)]
fn eliminate_other<L: Ledger>(
    arena: &mut Arena,
    alloc: Global,
    table: &mut HashMap<u32, Reduced, ByNumber>,
    proof: u32,
    budget: u64,
    steps: &mut Steps<L>,
) -> Result<Reduced, ElimFault>
    requires proof { IsTreeAt arena.old proof }
    requires valid { IsValid (tree_at arena.old proof) }
    requires other { is_cut (rule_of (tree_at arena.old proof)) ≡ false }
    requires table { AreEliminated arena.old table.old }
    ensures there { IfOk result (λ made. IsTreeAt arena.new made.proof) }
    ensures ok { IfOk result (λ made. elimination (tree_at arena.old proof) budget ≡ Some (tree_at arena.new made.proof, made.reductions)) }
    ensures budget { result ≡ Err ElimFault.Budget → elimination (tree_at arena.old proof) budget ≡ None }
    ensures table { AreEliminated arena.new table.new }
    ensures grown { Extends arena.old arena.new }
    ensures counted_ok { IfOk result (λ made. steps.new ≤ steps.old + made.reductions) }
    ensures counted { steps.new ≤ steps.old + budget }
    ensures rises { steps.old ≤ steps.new }
    ensures least { AreFree table.old → steps.new ≡ steps.old → AreFree table.new × IfOk result (λ made. made.reductions ≡ 0) }
{
    laws::big_steps();
    laws::least();
    laws::falling_work();
    let above = premises(arena, proof);
    let made = match eliminate_all(arena, alloc, table, above, budget, steps) {
        Ok(made) => made,
        Err(fault) => return Err(fault),
    };
    let reductions = made.reductions;
    if reductions == 0 {
        return Ok(Reduced { proof, reductions });
    }
    let rule = rule(arena, proof);
    let end = end(arena, proof);
    match inference(arena, alloc, rule, end, made.proofs) {
        Ok(proof) => Ok(Reduced { proof, reductions }),
        Err(_) => Err(ElimFault::Memory),
    }
}

// The elimination in several proofs, from left to right, within a budget for all.
#[cycle(eliminate)]
fn eliminate_all<L: Ledger>(
    arena: &mut Arena,
    alloc: Global,
    table: &mut HashMap<u32, Reduced, ByNumber>,
    proofs: Parts,
    budget: u64,
    steps: &mut Steps<L>,
) -> Result<Several, ElimFault>
    requires proofs { HasPremises arena.old proofs }
    requires valid { AllValid (trees_at arena.old proofs) }
    requires table { AreEliminated arena.old table.old }
    ensures there { IfOk result (λ made. HasPremises arena.new made.proofs) }
    ensures ok { IfOk result (λ made. elimination_all (trees_at arena.old proofs) budget ≡ Some (trees_at arena.new made.proofs, made.reductions)) }
    ensures budget { result ≡ Err ElimFault.Budget → elimination_all (trees_at arena.old proofs) budget ≡ None }
    ensures table { AreEliminated arena.new table.new }
    ensures grown { Extends arena.old arena.new }
    ensures counted_ok { IfOk result (λ made. steps.new ≤ steps.old + made.reductions) }
    ensures counted { steps.new ≤ steps.old + budget }
    ensures rises { steps.old ≤ steps.new }
    ensures least { AreFree table.old → steps.new ≡ steps.old → AreFree table.new × IfOk result (λ made. made.reductions ≡ 0) }
{
    laws::falling_work();
    match proofs {
        Parts::Zero => Ok(Several {
            proofs,
            reductions: 0,
        }),
        Parts::One(only) => match eliminate_in(arena, alloc, table, only, budget, steps) {
            Ok(made) => Ok(Several {
                proofs: Parts::One(made.proof),
                reductions: made.reductions,
            }),
            Err(fault) => Err(fault),
        },
        Parts::Two(left, right) => {
            match eliminate_both(arena, alloc, table, left, right, budget, steps) {
                Ok(both) => Ok(Several {
                    proofs: Parts::Two(both.left.proof, both.right.proof),
                    reductions: both.left.reductions + both.right.reductions,
                }),
                Err(fault) => Err(fault),
            }
        }
    }
}

// The elimination in two proofs, first in the left one and then, within what is left of the budget, in the right one.
#[cycle(eliminate)]
fn eliminate_both<L: Ledger>(
    arena: &mut Arena,
    alloc: Global,
    table: &mut HashMap<u32, Reduced, ByNumber>,
    left: u32,
    right: u32,
    budget: u64,
    steps: &mut Steps<L>,
) -> Result<Both, ElimFault>
    requires left { IsTreeAt arena.old left }
    requires right { IsTreeAt arena.old right }
    requires left_valid { IsValid (tree_at arena.old left) }
    requires right_valid { IsValid (tree_at arena.old right) }
    requires table { AreEliminated arena.old table.old }
    ensures both { IfOk result (λ made. AreBoth arena.new (tree_at arena.old left) (tree_at arena.old right) budget made) }
    ensures budget { result ≡ Err ElimFault.Budget → elimination_all (more (tree_at arena.old left) (more (tree_at arena.old right) none)) budget ≡ None }
    ensures within { IfOk result (λ made. made.left.reductions + made.right.reductions ≤ budget) }
    ensures table { AreEliminated arena.new table.new }
    ensures grown { Extends arena.old arena.new }
    ensures counted_ok { IfOk result (λ made. steps.new ≤ steps.old + (made.left.reductions + made.right.reductions)) }
    ensures counted { steps.new ≤ steps.old + budget }
    ensures rises { steps.old ≤ steps.new }
    ensures least { AreFree table.old → steps.new ≡ steps.old → AreFree table.new × IfOk result (λ made. made.left.reductions + made.right.reductions ≡ 0) }
{
    laws::budgets();
    let first = match eliminate_in(arena, alloc, table, left, budget, steps) {
        Ok(first) => first,
        Err(fault) => return Err(fault),
    };
    let rest = budget - first.reductions;
    match eliminate_in(arena, alloc, table, right, rest, steps) {
        Ok(second) => Ok(Both {
            left: first,
            right: second,
        }),
        Err(fault) => Err(fault),
    }
}
