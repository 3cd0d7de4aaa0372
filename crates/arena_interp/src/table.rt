//! Interpolations that are known.
ghost use Rattle.std.specs.Prelude.{IfOk, IfSome};
ghost use Rattle.arena_interp.specs.Partitions.{IsPartitionAt, itp_at, HasInterpolation, IsKnown, AreKnown};

use crate::interpolated::Interpolated;
use crate::partition::Partition;
use arena::Arena;
use number_hash::ByNumber;
use std::alloc::AllocError;
use std::collections::HashMap;

/// The interpolation of a proof by two parts, where the table has it.
pub(crate) fn look_up(
    arena: &Arena,
    table: &HashMap<Partition, Interpolated, ByNumber>,
    partition: Partition,
) -> Option<Interpolated>
    requires { AreKnown arena.now table.now }
    ensures { IfSome result (IsKnown arena.now partition) }
{
    let _arena = arena;
    table.get(&partition).copied()
}

/// Enters the interpolation of a proof by two parts.
pub(crate) fn note(
    arena: &Arena,
    table: &mut HashMap<Partition, Interpolated, ByNumber>,
    partition: Partition,
    made: Interpolated,
) -> Result<(), AllocError>
    requires table { AreKnown arena.now table.old }
    requires partition { IsPartitionAt arena.now partition }
    requires made { HasInterpolation arena.now (itp_at arena.now partition) made }
    ensures { IfOk result (λ _. AreKnown arena.now table.new) }
{
    let _arena = arena;
    table.insert(partition, made)?;
    Ok(())
}
