//! How many rows have a set of values, and the places of their tuples.
ghost use Rattle.std.specs.Prelude.{◌≡◌, ◌+◌, ◌<◌, ◌^◌, length, position, bit_or, IfOk};
ghost use Rattle.std.specs.List.{All};
ghost use Rattle.numbered_terms.specs.NumberSets.{same_numbers};
ghost use Rattle.delta_table.specs.FoundRows.{nothing, noted as with_row, noted_at, tallies_at};

use crate::founds::Found;
use numbered_terms::NumberSets;
use std::alloc::{AllocError, Global};

/// How many rows have a set of values, and the places of the tuples of these rows.
#[derive(Clone, Copy)]
pub(crate) struct Tally {
    pub rows: u64,
    pub places: u64,
}

impl Tally {
    /// The tally of no rows.
    pub fn new() -> Tally
        ensures { result ≡ nothing }
    {
        Tally { rows: 0, places: 0 }
    }

    // The tally with one row more.
    fn noted(self, row: &Found) -> Tally
        requires { self.rows + 1 < 2 ^ 64 }
        ensures { result ≡ with_row row.now.places self }
    {
        Tally {
            rows: self.rows + 1,
            places: self.places | row.places,
        }
    }
}

// Notes a row in the tally at the place of its values.
#[tactic(auto, using(crate::proofs::TallySteps::place_within))]
fn note(tallies: &mut [Tally], keys: &NumberSets, row: &Found)
    requires as_many { length tallies.old ≡ length keys.now }
    requires room { All (λ t. t.rows + 1 < 2 ^ 64) tallies.old }
    ensures { tallies.new ≡ noted_at row.now (position (same_numbers row.now.values) keys.now) tallies.old }
{
    if let Some(at) = keys.place(&row.values) {
        let tally = tallies[at];
        tallies[at] = tally.noted(row);
    }
}

/// How many of the rows have each set of values, and the places of their tuples.
pub(crate) fn tally_rows(
    alloc: Global,
    keys: &NumberSets,
    rows: &[Found],
) -> Result<Vec<Tally>, AllocError>
    ensures { IfOk result (λ v. v.items ≡ tallies_at keys.now rows.now) }
{
    let sets = keys.as_slice();
    let mut tallies = Vec::with_capacity(alloc, sets.len())?;
    for _set in sets {
        tallies.push(Tally::new())?;
    }
    for row in rows {
        note(tallies.as_mut_slice(), keys, row);
    }
    Ok(tallies)
}
