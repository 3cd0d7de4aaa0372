//! Interpolation.
ghost use Rattle.std.specs.Prelude.{◌≡◌, true, IfOk};
ghost use Rattle.lk_rules.specs.declared.rule.Rule.TheVariants.{Weak};
ghost use Rattle.proof_trees.specs.Trees.{rule_of, below, count};
ghost use Rattle.interp_laws.specs.Interpolation.{has_main, itp};
ghost use Rattle.interp_laws.specs.Parts.{HasParts};
ghost use Rattle.arena_cells.specs.Standing.{Extends, sequent_at, tree_at, IsSequentAt, IsTreeAt};
ghost use Rattle.arena_cells.specs.Meaning.{trees_at};
ghost use Rattle.arena_cells.specs.declared.key.Parts.TheVariants.{Two};
ghost use Rattle.arena_interp.specs.Partitions.{IsPartitionAt, itp_at, HasInterpolation, AreKnown};

use crate::interpolated::Interpolated;
use crate::leaves::{axiom, leaf};
use crate::main_formula::part_of;
use crate::one_premise::over_one;
use crate::partition::Partition;
use crate::table::{look_up, note};
use crate::two_premises::join;
use crate::upper::upper_partition;
use arena::{Arena, Parts, RuleKey};
use arena_proofs::{premises, rule};
use arena_subst::{Moved, moved_to};
use interp_laws::laws;
use number_hash::ByNumber;
use std::alloc::{AllocError, Global};
use std::collections::HashMap;

// The interpolation, which is made where the table doesn't have it.
#[cycle(interpolate)]
fn interpolate_at(
    arena: &mut Arena,
    alloc: Global,
    table: &mut HashMap<Partition, Interpolated, ByNumber>,
    partition: Partition,
) -> Result<Interpolated, AllocError>
    requires partition { IsPartitionAt arena.old partition }
    requires table { AreKnown arena.old table.old }
    ensures made { IfOk result (HasInterpolation arena.new (itp_at arena.old partition)) }
    ensures table { IfOk result (λ _. AreKnown arena.new table.new) }
    ensures grown { Extends arena.old arena.new }
{
    if let Some(made) = look_up(arena, table, partition) {
        return Ok(made);
    }
    let made = interpolate_root(arena, alloc, table, partition)?;
    note(arena, table, partition, made)?;
    Ok(made)
}

// The interpolation, by the last rule.
#[cycle(interpolate)]
fn interpolate_root(
    arena: &mut Arena,
    alloc: Global,
    table: &mut HashMap<Partition, Interpolated, ByNumber>,
    partition: Partition,
) -> Result<Interpolated, AllocError>
    requires partition { IsPartitionAt arena.old partition }
    requires table { AreKnown arena.old table.old }
    ensures made { IfOk result (HasInterpolation arena.new (itp_at arena.old partition)) }
    ensures table { IfOk result (λ _. AreKnown arena.new table.new) }
    ensures grown { Extends arena.old arena.new }
{
    laws::steps();
    let rule = rule(arena, partition.proof);
    match rule {
        RuleKey::Ax(formula) => { axiom(arena, alloc, formula, partition.first, partition.second) }
        RuleKey::Weak => interpolate_weakened(arena, alloc, table, partition),
        RuleKey::Cut(_) => unreachable!(),
        _ => interpolate_main(arena, alloc, table, partition),
    }
}

// The interpolation of weakening is that of the premise, by the same parts.
#[cycle(interpolate)]
fn interpolate_weakened(
    arena: &mut Arena,
    alloc: Global,
    table: &mut HashMap<Partition, Interpolated, ByNumber>,
    partition: Partition,
) -> Result<Interpolated, AllocError>
    requires partition { IsPartitionAt arena.old partition }
    requires rule { rule_of (tree_at arena.old partition.proof) ≡ Weak }
    requires table { AreKnown arena.old table.old }
    ensures made { IfOk result (HasInterpolation arena.new (itp_at arena.old partition)) }
    ensures table { IfOk result (λ _. AreKnown arena.new table.new) }
    ensures grown { Extends arena.old arena.new }
{
    laws::steps();
    laws::premises();
    let Parts::One(proof) = premises(arena, partition.proof) else {
        unreachable!()
    };
    let upper = Partition {
        proof,
        first: partition.first,
        second: partition.second,
    };
    interpolate_at(arena, alloc, table, upper)
}

// The interpolation of an inference by a rule with a main formula, by its premises.
#[cycle(interpolate)]
fn interpolate_main(
    arena: &mut Arena,
    alloc: Global,
    table: &mut HashMap<Partition, Interpolated, ByNumber>,
    partition: Partition,
) -> Result<Interpolated, AllocError>
    requires partition { IsPartitionAt arena.old partition }
    requires main { has_main (rule_of (tree_at arena.old partition.proof)) ≡ true }
    requires table { AreKnown arena.old table.old }
    ensures made { IfOk result (HasInterpolation arena.new (itp_at arena.old partition)) }
    ensures table { IfOk result (λ _. AreKnown arena.new table.new) }
    ensures grown { Extends arena.old arena.new }
{
    laws::steps();
    match premises(arena, partition.proof) {
        Parts::Zero => {
            let rule = rule(arena, partition.proof);
            let side = part_of(arena, rule, partition.first);
            leaf(arena, alloc, side, rule, partition.first, partition.second)
        }
        Parts::One(_) => interpolate_one(arena, alloc, table, partition),
        Parts::Two(first, second) => {
            interpolate_two(arena, alloc, table, partition, first, second)
        }
    }
}

// The interpolation of an inference with one premise, in which the eigenvariable is free in neither part.
#[cycle(interpolate)]
fn interpolate_one(
    arena: &mut Arena,
    alloc: Global,
    table: &mut HashMap<Partition, Interpolated, ByNumber>,
    partition: Partition,
) -> Result<Interpolated, AllocError>
    requires partition { IsPartitionAt arena.old partition }
    requires main { has_main (rule_of (tree_at arena.old partition.proof)) ≡ true }
    requires single { count (below (tree_at arena.old partition.proof)) ≡ 1 }
    requires table { AreKnown arena.old table.old }
    ensures made { IfOk result (HasInterpolation arena.new (itp_at arena.old partition)) }
    ensures table { IfOk result (λ _. AreKnown arena.new table.new) }
    ensures grown { Extends arena.old arena.new }
{
    laws::steps();
    laws::premises();
    let Partition {
        proof,
        first,
        second,
    } = partition;
    let side = part_of(arena, rule(arena, proof), first);
    let end = arena.union_sequents(alloc, first, second)?;
    let Moved { rule, premises } = moved_to(arena, alloc, end, proof)?;
    let Parts::One(proof) = premises else {
        unreachable!()
    };
    let lower = Partition {
        proof,
        first,
        second,
    };
    let upper = upper_partition(arena, alloc, side, rule, 0, lower)?;
    let made = interpolate_at(arena, alloc, table, upper)?;
    over_one(arena, alloc, side, rule, first, second, made)
}

// The interpolation of an inference with these two premises.
#[cycle(interpolate)]
fn interpolate_two(
    arena: &mut Arena,
    alloc: Global,
    table: &mut HashMap<Partition, Interpolated, ByNumber>,
    partition: Partition,
    left: u32,
    right: u32,
) -> Result<Interpolated, AllocError>
    requires partition { IsPartitionAt arena.old partition }
    requires main { has_main (rule_of (tree_at arena.old partition.proof)) ≡ true }
    requires left { IsTreeAt arena.old left }
    requires right { IsTreeAt arena.old right }
    requires both { below (tree_at arena.old partition.proof) ≡ trees_at arena.old (Two left right) }
    requires table { AreKnown arena.old table.old }
    ensures made { IfOk result (HasInterpolation arena.new (itp_at arena.old partition)) }
    ensures table { IfOk result (λ _. AreKnown arena.new table.new) }
    ensures grown { Extends arena.old arena.new }
{
    laws::steps();
    laws::premises();
    let Partition { first, second, .. } = partition;
    let rule = rule(arena, partition.proof);
    let side = part_of(arena, rule, first);
    let lower = Partition {
        proof: left,
        first,
        second,
    };
    let upper = upper_partition(arena, alloc, side, rule, 0, lower)?;
    let left = interpolate_at(arena, alloc, table, upper)?;
    let lower = Partition {
        proof: right,
        first,
        second,
    };
    let upper = upper_partition(arena, alloc, side, rule, 1, lower)?;
    let right = interpolate_at(arena, alloc, table, upper)?;
    join(arena, alloc, side, rule, first, second, left, right)
}

/// The interpolation of a valid proof without cuts by two well-formed sequents, the parts, which have together all formulas of its end
/// sequent: the interpolant, with the proof of the first part with the interpolant on the right, and that of the second part with it on the
/// left. Each distinct proof is worked on once for each two parts that it gets. An interpolant of more nodes than a formula may have is
/// refused as want of memory.
pub fn interpolate_in(
    arena: &mut Arena,
    alloc: Global,
    proof: u32,
    first: u32,
    second: u32,
) -> Result<Interpolated, AllocError>
    requires proof { IsTreeAt arena.old proof }
    requires first { IsSequentAt arena.old first }
    requires second { IsSequentAt arena.old second }
    requires parts { HasParts (tree_at arena.old proof) (sequent_at arena.old first) (sequent_at arena.old second) }
    ensures made { IfOk result (HasInterpolation arena.new (itp (tree_at arena.old proof) (sequent_at arena.old first) (sequent_at arena.old second))) }
    ensures grown { Extends arena.old arena.new }
{
    let mut table = HashMap::with_hasher(alloc, ByNumber);
    let partition = Partition {
        proof,
        first,
        second,
    };
    interpolate_at(arena, alloc, &mut table, partition)
}
