//! The parts of a premise's conclusion.
ghost use Rattle.std.specs.Prelude.{◌≡◌, ◌<◌, IfOk};
ghost use Rattle.interp_laws.specs.Interpolation.{first_above, second_above, above, itp};
ghost use Rattle.interp_laws.specs.Parts.{HasParts};
ghost use Rattle.arena_cells.specs.Standing.{Extends, sequent_at, tree_at, IsSequentAt, IsTreeAt};
ghost use Rattle.arena_cells.specs.Meaning.{rule_at, HasRuleParts};
ghost use Rattle.arena_interp.specs.Partitions.{IsPartitionAt, itp_at};

use crate::partition::Partition;
use arena::{Arena, RuleKey};
use arena_proofs::with_aux;
use lk_rules::Side;
use std::alloc::{AllocError, Global};

/// A premise of the rule, the first (0) or the second (1), with its parts: the part of the rule's main formula has the auxiliary formulas too.
pub(crate) fn upper_partition(
    arena: &mut Arena,
    alloc: Global,
    side: Side,
    rule: RuleKey,
    place: u64,
    lower: Partition,
) -> Result<Partition, AllocError>
    requires rule { HasRuleParts arena.old rule }
    requires place { place < 2 }
    requires premise { IsTreeAt arena.old lower.proof }
    requires one { IsSequentAt arena.old lower.first }
    requires two { IsSequentAt arena.old lower.second }
    requires parts { HasParts (tree_at arena.old lower.proof) (first_above side (rule_at arena.old rule) place (sequent_at arena.old lower.first)) (second_above side (rule_at arena.old rule) place (sequent_at arena.old lower.second)) }
    ensures partition { IfOk result (IsPartitionAt arena.new) }
    ensures proof { IfOk result (λ made. tree_at arena.new made.proof ≡ tree_at arena.old lower.proof) }
    ensures above { IfOk result (λ made. itp_at arena.new made ≡ above itp side (rule_at arena.old rule) place (tree_at arena.old lower.proof) (sequent_at arena.old lower.first) (sequent_at arena.old lower.second)) }
    ensures grown { Extends arena.old arena.new }
{
    let Partition {
        proof,
        first,
        second,
    } = lower;
    match side {
        Side::Right => {
            let first = with_aux(arena, alloc, first, rule, place)?;
            Ok(Partition {
                proof,
                first,
                second,
            })
        }
        Side::Left => {
            let second = with_aux(arena, alloc, second, rule, place)?;
            Ok(Partition {
                proof,
                first,
                second,
            })
        }
    }
}
