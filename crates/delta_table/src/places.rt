//! Sets of at most 64 places in a list, each a bit of a number.
ghost use Rattle.std.specs.Prelude.{◌≡◌, ◌<◌, ◌≤◌, ◌^◌, length, bit_or, IfOk};
ghost use Rattle.delta_table.specs.Places.{has_place as is_place_in, lacks_place as is_place_outside, kept_at};

use fol::Terms;
use std::alloc::{AllocError, Global};

/// The places with one more.
#[tactic(auto, using(crate::proofs::PlaceSets::one_place))]
pub(crate) fn with_place(places: u64, place: u64) -> u64
    requires { place < 64 }
    ensures { result ≡ bit_or places (2 ^ place) }
{
    places | 1 << place
}

/// Whether the place is in the set.
#[tactic(auto, using(crate::proofs::PlaceSets::place_bit), unfolding(crate::specs::Places::has_place))]
pub(crate) fn has_place(places: u64, place: u64) -> bool
    requires { place < 64 }
    ensures { result ≡ is_place_in places place }
{
    (places >> place) & 1 == 1
}

/// Whether the place isn't in the set.
#[tactic(auto, unfolding(crate::specs::Places::lacks_place))]
fn lacks_place(places: u64, place: u64) -> bool
    requires { place < 64 }
    ensures { result ≡ is_place_outside places place }
{
    !has_place(places, place)
}

/// The tuples whose places are in the set.
#[tactic(auto, using(crate::proofs::PlaceSets::kept_yes, crate::proofs::PlaceSets::kept_no))]
pub(crate) fn tuples_at(
    alloc: Global,
    tuples: &[Terms],
    places: u64,
) -> Result<Vec<Terms>, AllocError>
    requires { length tuples.now ≤ 64 }
    ensures { IfOk result (λ v. v.items ≡ kept_at (is_place_in places) 0 tuples.now) }
{
    let mut kept = Vec::new(alloc);
    for place in 0..tuples.len() {
        if has_place(places, place as u64) {
            kept.push(tuples[place].copy()?)?;
        }
    }
    Ok(kept)
}

/// The tuples whose places aren't in the set.
#[tactic(auto, using(crate::proofs::PlaceSets::kept_yes, crate::proofs::PlaceSets::kept_no))]
pub(crate) fn tuples_outside(
    alloc: Global,
    tuples: &[Terms],
    places: u64,
) -> Result<Vec<Terms>, AllocError>
    requires { length tuples.now ≤ 64 }
    ensures { IfOk result (λ v. v.items ≡ kept_at (is_place_outside places) 0 tuples.now) }
{
    let mut kept = Vec::new(alloc);
    for place in 0..tuples.len() {
        if lacks_place(places, place as u64) {
            kept.push(tuples[place].copy()?)?;
        }
    }
    Ok(kept)
}

/// How many tuples have places that aren't in the set.
#[tactic(auto, using(crate::proofs::PlaceSets::kept_yes, crate::proofs::PlaceSets::kept_no))]
pub(crate) fn count_outside(tuples: &[Terms], places: u64) -> u64
    requires { length tuples.now ≤ 64 }
    ensures value { result ≡ length (kept_at (is_place_outside places) 0 tuples.now) }
    ensures within { result ≤ 64 }
{
    let mut count: u64 = 0;
    for place in 0..tuples.len() {
        if lacks_place(places, place as u64) {
            count += 1;
        }
    }
    count
}
