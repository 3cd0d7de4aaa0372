//! Instances of formulas on sides.
ghost use Rattle.std.specs.Prelude.{◌≡◌, ◌++◌, map, IfOk};
ghost use Rattle.std.specs.List.{All};
ghost use Rattle.cut_intro.specs.Instances.{of_tuple, IsFormedInstance, AreFormedTuples};
ghost use Rattle.fol.specs.Formed.{IsFormed};

use fol::{Formula, Terms};
use lk_rules::Side;
use std::alloc::AllocError;

/// A formula on a side, with a term for each of its quantifiers.
#[derive(Drop)]
pub(crate) struct Instance {
    pub side: Side,
    pub formula: Formula,
    pub tuple: Terms,
}

/// Appends the instances of a formula by tuples. After an error some of them may stand there.
pub(crate) fn push_instances(
    list: &mut Vec<Instance>,
    side: Side,
    formula: &Formula,
    tuples: &[Terms],
) -> Result<(), AllocError>
    requires formula { IsFormed formula.now }
    requires tuples { AreFormedTuples tuples.now }
    requires list { All IsFormedInstance list.old.items }
    ensures items { IfOk result (λ _. list.new.items ≡ list.old.items ++ map (of_tuple side formula.now) tuples.now) }
    ensures formed { All IsFormedInstance list.new.items }
{
    for tuple in tuples {
        list.push(Instance {
            side,
            formula: formula.copy()?,
            tuple: tuple.copy()?,
        })?;
    }
    Ok(())
}
