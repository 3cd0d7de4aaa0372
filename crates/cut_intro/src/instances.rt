//! The instances of the formulas of a sequent, as they stand in the proof with a cut.
ghost use Rattle.std.specs.Prelude.{◌≡◌, length, map, IfOk};
ghost use Rattle.std.specs.List.{All};
ghost use Rattle.herbrand_laws.specs.Patterns.{put as put_in};
ghost use Rattle.herbrand_laws.specs.Introduction.{instances_by};
ghost use Rattle.cut_intro.specs.Instances.{meant, IsFormedInstance, AreFormedTuples, instances_of_each};

use crate::filling::put_each;
use crate::instance::{Instance, push_instances};
use delta_table::{Item, Tuples};
use fol::Term;
use std::alloc::{AllocError, Global};

/// The instances of each item by its patterns with the term for their variable.
pub(crate) fn instances_at(
    alloc: Global,
    items: &[Item],
    patterns: &[Tuples],
    term: &Term,
) -> Result<Vec<Instance>, AllocError>
    requires lengths { length patterns.now ≡ length items.now }
    requires formed { All (λ ps. AreFormedTuples (map (λ p. put_in p term.now) ps)) patterns.now }
    ensures items { IfOk result (λ js. map meant js.items ≡ instances_of_each items.now (map (map (λ p. put_in p term.now)) patterns.now)) }
    ensures formed { IfOk result (λ js. All IsFormedInstance js.items) }
{
    let mut list = Vec::new(alloc);
    for (place, item) in items.iter().enumerate() {
        let tuples = put_each(alloc, patterns[place].as_slice(), term)?;
        push_instances(&mut list, item.side(), item.formula(), &tuples)?;
    }
    Ok(list)
}

/// The instances of each item by its tuples.
pub(crate) fn instances_of(alloc: Global, items: &[Item]) -> Result<Vec<Instance>, AllocError>
    ensures items { IfOk result (λ js. map meant js.items ≡ instances_by (λ i. i.tuples) items.now) }
    ensures formed { IfOk result (λ js. All IsFormedInstance js.items) }
{
    let mut list = Vec::new(alloc);
    for item in items {
        push_instances(
            &mut list,
            item.side(),
            item.formula(),
            item.tuples().as_slice(),
        )?;
    }
    Ok(list)
}
