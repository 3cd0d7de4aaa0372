//! Rows: the pattern of several tuples, and the set of its values.
ghost use Rattle.std.specs.Prelude.{◌≡◌, map, option_map, IfOk};
ghost use Rattle.herbrand_laws.specs.Patterns.{row_with, delta as row_of_tuples};
ghost use Rattle.delta_rows.specs.Shown.{listed_values, row_meant};

use crate::patterns::{TuplePattern, pattern_of_tuples};
use crate::values::Values;
use fol::{Term, Terms};
use std::alloc::{AllocError, Global};

/// A pattern of tuples, whose variable is `Bound(0)`, and the set of the values that give them back.
#[derive(Drop)]
pub struct Row {
    pub pattern: Terms,
    pub values: Values,
}

// The tuples of a list, lent.
fn lent(alloc: Global, tuples: &[Terms]) -> Result<Vec<&Terms>, AllocError>
    ensures { IfOk result (λ list. map (λ ts. ts.now) list.items ≡ tuples.now) }
{
    let mut list = Vec::with_capacity(alloc, tuples.len())?;
    for tuple in tuples {
        list.push(tuple)?;
    }
    Ok(list)
}

/// The row of a list of tuples. There is none of no tuple, of equal ones, and of those whose terms have different lists of values.
pub fn delta(alloc: Global, tuples: &[Terms]) -> Result<Option<Row>, AllocError>
    ensures { IfOk result (λ o. option_map row_meant o ≡ row_of_tuples tuples.now) }
{
    let [first, others @ ..] = tuples else {
        return Ok(None);
    };
    let others = lent(alloc, others)?;
    match pattern_of_tuples(alloc, first, &others)? {
        None => Ok(None),
        Some(TuplePattern { pattern, values }) => Ok(with_values(pattern, values)),
    }
}

// A pattern without values is no row.
fn with_values(pattern: Terms, values: Option<Vec<Term>>) -> Option<Row>
    ensures { option_map row_meant result ≡ row_with pattern (listed_values values) }
{
    let values = Values::from_vec(values?);
    Some(Row { pattern, values })
}
