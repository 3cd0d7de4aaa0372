//! Sets of values by the numbers of their terms.
ghost use Rattle.std.specs.Prelude.{◌≡◌, IfOk};
ghost use Rattle.std.specs.List.{All};
ghost use Rattle.arena_cells.specs.Standing.{IsTermAt};
ghost use Rattle.numbered_terms.specs.Numbered.{set_at, IsTermSet};
ghost use Rattle.delta_rows.specs.ValueOrder.{smaller_cmp};

use arena_cells::Cells;
use delta_rows::{Values, compare_sizes};
use numbered_terms::NumberSet;
use std::alloc::{AllocError, Global};
use std::cmp::Ordering;

/// The values at the numbers of a set.
pub(crate) fn values_at(alloc: Global, cells: &Cells, set: &NumberSet) -> Result<Values, AllocError>
    requires { All (IsTermAt cells.now) set.now }
    ensures { IfOk result (λ v. v ≡ set_at cells.now set.now) }
{
    let numbers = set.as_slice();
    let mut values = Vec::with_capacity(alloc, numbers.len())?;
    for number in numbers {
        values.push(cells.term(*number).copy()?)?;
    }
    Ok(Values::from_vec(values))
}

/// The order of the sets at numbers by how many terms they have, and then by the rising lists of these.
pub(crate) fn compare_sets(
    alloc: Global,
    cells: &Cells,
    first: &NumberSet,
    second: &NumberSet,
) -> Result<Ordering, AllocError>
    requires first { IsTermSet cells.now first.now }
    requires second { IsTermSet cells.now second.now }
    ensures { IfOk result (λ o. o ≡ smaller_cmp (set_at cells.now first.now) (set_at cells.now second.now)) }
{
    cells.known();
    match first.as_slice().len().cmp(&second.as_slice().len()) {
        Ordering::Equal => {
            let first = values_at(alloc, cells, first)?;
            let second = values_at(alloc, cells, second)?;
            Ok(compare_sizes(&first, &second))
        }
        unequal => Ok(unequal),
    }
}
