//! The elimination of cuts without a budget.
ghost use Rattle.std.specs.Prelude.{◌≡◌, true, false, nat_eq, Some, is_some, IfOk, IfSome};
ghost use Rattle.std.specs.HashMap as hash;
ghost use Rattle.proof_trees.specs.Trees.{more, none, rule_of, is_cut, IsValid, AllValid};
ghost use Rattle.cut_laws.specs.Contraction.{con};
ghost use Rattle.arena_cells.specs.Standing.{Extends, sequent_at, formula_at, tree_at, IsSequentAt, IsFormulaAt, IsTreeAt};
ghost use Rattle.arena_cells.specs.Meaning.{trees_at, HasPremises};
ghost use Rattle.arena_cuts.specs.CutNumbers.{IsCutAt, cut_at};
ghost use Rattle.arena_cuts.specs.Whole.{ReducesTo, ReduceTo, AreReduced, AreBothReduced};

use crate::contraction::contract_in;
use crate::cut::Cut;
use crate::steps::Steps;
use arena::{Arena, Parts, RuleKey};
use arena_proofs::{end, inference, premises, rule};
use cut_laws::laws;
use number_hash::ByNumber;
use std::alloc::{AllocError, Global};
use std::collections::HashMap;
use std::sync::ledger::Ledger;

// The proofs without cuts that two proofs come to.
#[derive(Clone, Copy, Drop)]
pub(crate) struct Pair {
    pub left: u32,
    pub right: u32,
}

// What a proof comes to, where the table has it.
fn look_up(arena: &Arena, table: &HashMap<u32, u32, ByNumber>, proof: u32) -> Option<u32>
    requires { AreReduced arena.now table.now }
    ensures there { IfSome result (λ made. IsTreeAt arena.now made) }
    ensures reduced { IfSome result (λ made. ReducesTo (tree_at arena.now proof) (tree_at arena.now made)) }
    ensures found { is_some (hash.get nat_eq table.now proof) ≡ true → is_some result ≡ true }
{
    let _arena = arena;
    match table.get(&proof) {
        Some(made) => Some(*made),
        None => None,
    }
}

// Enters what a proof comes to.
fn note(
    arena: &Arena,
    table: &mut HashMap<u32, u32, ByNumber>,
    proof: u32,
    made: u32,
) -> Result<(), AllocError>
    requires tree { IsTreeAt arena.now proof }
    requires there { IsTreeAt arena.now made }
    requires table { AreReduced arena.now table.old }
    requires reduced { ReducesTo (tree_at arena.now proof) (tree_at arena.now made) }
    ensures { AreReduced arena.now table.new }
{
    let _arena = arena;
    table.insert(proof, made)?;
    Ok(())
}

/// The proof without cuts that is reached when the first cut in post-order, premises from left to right, gives way to its contraction until
/// no cut is left. No budget bounds the contractions, and how many there are isn't told: their number may exceed each integer type. The
/// table has the proofs without cuts that are known, by the numbers of the proofs that come to them: each distinct proof is worked on once.
/// `steps` counts the contractions that are made.
#[cycle(eliminate_whole)]
pub fn eliminate_whole_in<L: Ledger>(
    arena: &mut Arena,
    alloc: Global,
    table: &mut HashMap<u32, u32, ByNumber>,
    proof: u32,
    steps: &mut Steps<L>,
) -> Result<u32, AllocError>
    requires proof { IsTreeAt arena.old proof }
    requires valid { IsValid (tree_at arena.old proof) }
    requires table { AreReduced arena.old table.old }
    ensures there { IfOk result (λ made. IsTreeAt arena.new made) }
    ensures reduced { IfOk result (λ made. ReducesTo (tree_at arena.old proof) (tree_at arena.new made)) }
    ensures table { AreReduced arena.new table.new }
    ensures grown { Extends arena.old arena.new }

    // So no proof is worked on that is known, wherever it stands.
    ensures known { is_some (hash.get nat_eq table.old proof) ≡ true → (table.new ≡ table.old) × (arena.new ≡ arena.old) × (steps.new ≡ steps.old) }
{
    if let Some(made) = look_up(arena, table, proof) {
        return Ok(made);
    }
    let made = whole_root(arena, alloc, table, proof, steps)?;
    note(arena, table, proof, made)?;
    Ok(made)
}

// The elimination in a proof, by its last rule.
#[cycle(eliminate_whole)]
fn whole_root<L: Ledger>(
    arena: &mut Arena,
    alloc: Global,
    table: &mut HashMap<u32, u32, ByNumber>,
    proof: u32,
    steps: &mut Steps<L>,
) -> Result<u32, AllocError>
    requires proof { IsTreeAt arena.old proof }
    requires valid { IsValid (tree_at arena.old proof) }
    requires table { AreReduced arena.old table.old }
    ensures there { IfOk result (λ made. IsTreeAt arena.new made) }
    ensures reduced { IfOk result (λ made. ReducesTo (tree_at arena.old proof) (tree_at arena.new made)) }
    ensures table { AreReduced arena.new table.new }
    ensures grown { Extends arena.old arena.new }
{
    let RuleKey::Cut(formula) = rule(arena, proof) else {
        return whole_other(arena, alloc, table, proof, steps);
    };
    let Parts::Two(left, right) = premises(arena, proof) else {
        unreachable!()
    };
    let cut = Cut {
        end: end(arena, proof),
        formula,
        left,
        right,
    };
    whole_cut(arena, alloc, table, cut, steps)
}

// The elimination in a cut: first in its left premise, then in the right one, and then in what takes its place.
#[cycle(eliminate_whole)]
fn whole_cut<L: Ledger>(
    arena: &mut Arena,
    alloc: Global,
    table: &mut HashMap<u32, u32, ByNumber>,
    cut: Cut,
    steps: &mut Steps<L>,
) -> Result<u32, AllocError>
    requires cut { IsCutAt arena.old cut }
    requires valid { IsValid (cut_at arena.old cut) }
    requires table { AreReduced arena.old table.old }
    ensures there { IfOk result (λ made. IsTreeAt arena.new made) }
    ensures reduced { IfOk result (λ made. ReducesTo (cut_at arena.old cut) (tree_at arena.new made)) }
    ensures table { AreReduced arena.new table.new }
    ensures grown { Extends arena.old arena.new }
{
    let both = match whole_both(arena, alloc, table, cut.left, cut.right, steps) {
        Ok(both) => both,
        Err(fault) => return Err(fault),
    };
    let lowest = Cut {
        end: cut.end,
        formula: cut.formula,
        left: both.left,
        right: both.right,
    };
    whole_lowest(arena, alloc, table, lowest, steps)
}

// The contraction of a cut, and the elimination in what takes its place.
#[cycle(eliminate_whole)]
fn whole_lowest<L: Ledger>(
    arena: &mut Arena,
    alloc: Global,
    table: &mut HashMap<u32, u32, ByNumber>,
    cut: Cut,
    steps: &mut Steps<L>,
) -> Result<u32, AllocError>
    requires cut { IsCutAt arena.old cut }
    requires valid { IsValid (cut_at arena.old cut) }
    requires table { AreReduced arena.old table.old }
    ensures there { IfOk result (λ made. IsTreeAt arena.new made) }
    ensures reduced { IfOk result (λ made. ReducesTo (con (sequent_at arena.old cut.end) (formula_at arena.old cut.formula) (tree_at arena.old cut.left) (tree_at arena.old cut.right)) (tree_at arena.new made)) }
    ensures table { AreReduced arena.new table.new }
    ensures grown { Extends arena.old arena.new }
{
    laws::contraction();
    match contract_in(
        arena,
        alloc,
        cut.end,
        cut.formula,
        cut.left,
        cut.right,
        steps,
    ) {
        Ok(made) => eliminate_whole_in(arena, alloc, table, made, steps),
        Err(fault) => Err(fault),
    }
}

// The elimination in a proof whose last rule is no cut.
#[cycle(eliminate_whole)]
fn whole_other<L: Ledger>(
    arena: &mut Arena,
    alloc: Global,
    table: &mut HashMap<u32, u32, ByNumber>,
    proof: u32,
    steps: &mut Steps<L>,
) -> Result<u32, AllocError>
    requires proof { IsTreeAt arena.old proof }
    requires valid { IsValid (tree_at arena.old proof) }
    requires other { is_cut (rule_of (tree_at arena.old proof)) ≡ false }
    requires table { AreReduced arena.old table.old }
    ensures there { IfOk result (λ made. IsTreeAt arena.new made) }
    ensures reduced { IfOk result (λ made. ReducesTo (tree_at arena.old proof) (tree_at arena.new made)) }
    ensures table { AreReduced arena.new table.new }
    ensures grown { Extends arena.old arena.new }
{
    let above = premises(arena, proof);
    let made = match whole_premises(arena, alloc, table, above, steps) {
        Ok(made) => made,
        Err(fault) => return Err(fault),
    };
    let rule = rule(arena, proof);
    let end = end(arena, proof);
    inference(arena, alloc, rule, end, made)
}

// The elimination in several proofs.
#[cycle(eliminate_whole)]
fn whole_premises<L: Ledger>(
    arena: &mut Arena,
    alloc: Global,
    table: &mut HashMap<u32, u32, ByNumber>,
    proofs: Parts,
    steps: &mut Steps<L>,
) -> Result<Parts, AllocError>
    requires proofs { HasPremises arena.old proofs }
    requires valid { AllValid (trees_at arena.old proofs) }
    requires table { AreReduced arena.old table.old }
    ensures there { IfOk result (λ made. HasPremises arena.new made) }
    ensures reduced { IfOk result (λ made. ReduceTo (trees_at arena.old proofs) (trees_at arena.new made)) }
    ensures table { AreReduced arena.new table.new }
    ensures grown { Extends arena.old arena.new }
{
    match proofs {
        Parts::Zero => Ok(Parts::Zero),
        Parts::One(only) => match eliminate_whole_in(arena, alloc, table, only, steps) {
            Ok(made) => Ok(Parts::One(made)),
            Err(fault) => Err(fault),
        },
        Parts::Two(left, right) => match whole_both(arena, alloc, table, left, right, steps) {
            Ok(both) => Ok(Parts::Two(both.left, both.right)),
            Err(fault) => Err(fault),
        },
    }
}

// The elimination in two proofs, first in the left one.
#[cycle(eliminate_whole)]
fn whole_both<L: Ledger>(
    arena: &mut Arena,
    alloc: Global,
    table: &mut HashMap<u32, u32, ByNumber>,
    left: u32,
    right: u32,
    steps: &mut Steps<L>,
) -> Result<Pair, AllocError>
    requires left { IsTreeAt arena.old left }
    requires right { IsTreeAt arena.old right }
    requires left_valid { IsValid (tree_at arena.old left) }
    requires right_valid { IsValid (tree_at arena.old right) }
    requires table { AreReduced arena.old table.old }
    ensures both { IfOk result (AreBothReduced arena.new (tree_at arena.old left) (tree_at arena.old right)) }
    ensures table { AreReduced arena.new table.new }
    ensures grown { Extends arena.old arena.new }
{
    let first = match eliminate_whole_in(arena, alloc, table, left, steps) {
        Ok(first) => first,
        Err(fault) => return Err(fault),
    };
    match eliminate_whole_in(arena, alloc, table, right, steps) {
        Ok(second) => Ok(Pair {
            left: first,
            right: second,
        }),
        Err(fault) => Err(fault),
    }
}
