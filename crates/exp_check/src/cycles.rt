//! Cycles of links.
ghost use Rattle.std.specs.Prelude.{◌≡◌, ◌≢◌, ◌<◌, ◌≤◌, ◌-◌, ◌&&◌, ◌∷◌, ℕ, length, false, true, nat_eq, slice_index, if◌then◌else◌, Some, None, IfOk, IsFalse};
ghost use Rattle.std.specs.List.{find, range_with_len};
ghost use Rattle.std.specs.Option.{option_map};
ghost use Rattle.exp_check.specs.Links.{has_link, AreWithin};
ghost use Rattle.expansion_laws.specs.Cycles.{way, cycle_from as cycle_from_number, first_cycle as first_of_cycles};
ghost use Rattle.exp_check.specs.Distances.{spread_at, AreMeasured};

use crate::links::Link;
use crate::ranks::candidates;
use std::alloc::{AllocError, Global};

// Whether the number from which the link leads has no distance yet, and the one to which it leads this one.
fn is_next(link: &Link, distances: &[usize], distance: usize) -> bool
    requires before { link.now.before < length distances.now }
    requires after { link.now.after < length distances.now }
    ensures { result ≡ (nat_eq (slice_index distances.now link.now.before) 0 && nat_eq (slice_index distances.now link.now.after) distance) }
{
    distances[link.before] == 0 && distances[link.after] == distance
}

// Gives the numbers that have no distance yet, and from which a link leads to one at this distance, the next distance. Whether there are
// such.
fn spread(links: &[Link], distances: &mut [usize], distance: usize) -> bool
    requires within { AreWithin (length distances.old) links.now }
    requires first { 1 ≤ distance }
    requires fits { distance < length distances.old }
    ensures count { length distances.new ≡ length distances.old }
    ensures values { (i : ℕ) → slice_index distances.new i ≡ spread_at links.now distances.old distance i }
    ensures same { IsFalse result → (i : ℕ) → slice_index distances.new i ≡ slice_index distances.old i }
{
    let mut found = false;
    for link in links {
        if is_next(link, distances, distance) {
            distances[link.before] = distance + 1;
            found = true;
        }
    }
    found
}

// Distance 1 for the numbers from which a link leads to the start, and 0 for all others.
fn first_distances(
    alloc: Global,
    count: usize,
    links: &[Link],
    start: usize,
) -> Result<Vec<usize>, AllocError>
    requires { AreWithin count links.now }
    ensures count { IfOk result (λ ds. length ds.items ≡ count) }
    ensures values { IfOk result (λ ds. (i : ℕ) → slice_index ds.items i ≡ (if has_link links.now i start then 1 else 0)) }
{
    let mut distances = vec![in alloc; 0; count]?;
    for link in links {
        if link.after == start {
            distances[link.before] = 1;
        }
    }
    Ok(distances)
}

// How many links lead from each number to the start, at least: 0 where it is not reached. All are found that are less than that of the
// start itself.
fn distances(
    alloc: Global,
    count: usize,
    links: &[Link],
    start: usize,
) -> Result<Vec<usize>, AllocError>
    requires within { AreWithin count links.now }
    requires start { start < count }
    ensures { IfOk result (λ ds. AreMeasured links.now count start ds.items) }
{
    let mut distances = first_distances(alloc, count, links, start)?;
    for distance in 1..count {
        if distances[start] != 0 {
            return Ok(distances);
        }
        if !spread(links, &mut distances, distance) {
            return Ok(distances);
        }
    }
    Ok(distances)
}

// Whether the link leads from the number to one at the distance.
fn is_way(link: &Link, distances: &[usize], number: usize, distance: usize) -> bool
    requires { link.now.after < length distances.now }
    ensures { result ≡ (nat_eq link.now.before number && nat_eq (slice_index distances.now link.now.after) distance) }
{
    link.before == number && distances[link.after] == distance
}

// The least number at a distance to which a link leads from a number.
fn next(links: &[Link], distances: &[usize], number: usize, distance: usize) -> Option<usize>
    requires { AreWithin (length distances.now) links.now }
    ensures { result ≡ find (λ j. has_link links.now number j && nat_eq (slice_index distances.now j) distance) (range_with_len 0 (length distances.now)) }
{
    let mut next: Option<usize> = None;
    for link in links {
        if is_way(link, distances, number, distance) {
            next = Some(match next {
                Some(least) => least.min(link.after),
                None => link.after,
            });
        }
    }
    next
}

// The cycle from a number on, by their distances from it.
fn cycle_along(
    alloc: Global,
    links: &[Link],
    distances: &[usize],
    start: usize,
) -> Result<Vec<usize>, AllocError>
    requires within { AreWithin (length distances.now) links.now }
    requires start { start < length distances.now }
    requires measured { AreMeasured links.now (length distances.now) start distances.now }
    requires reached { slice_index distances.now start ≢ 0 }
    ensures { IfOk result (λ ns. ns.items ≡ start ∷ way (has_link links.now) (range_with_len 0 (length distances.now)) (slice_index distances.now start - 1) start start) }
{
    let mut cycle = vec![in alloc; start]?;
    let mut number = start;
    let mut distance = distances[start];
    while distance > 1 {
        distance -= 1;
        match next(links, distances, number, distance) {
            Some(next) => {
                cycle.push(next)?;
                number = next;
            }
            None => unreachable!(),
        }
    }
    Ok(cycle)
}

// A shortest cycle from a number on.
fn cycle_from(
    alloc: Global,
    count: usize,
    links: &[Link],
    start: usize,
) -> Result<Option<Vec<usize>>, AllocError>
    requires within { AreWithin count links.now }
    requires start { start < count }
    ensures { IfOk result (λ o. option_map (λ ns. ns.items) o ≡ cycle_from_number (has_link links.now) (range_with_len 0 count) start) }
{
    let distances = distances(alloc, count, links, start)?;
    if distances[start] == 0 {
        return Ok(None);
    }
    Ok(Some(cycle_along(alloc, links, &distances, start)?))
}

/// A shortest cycle from the least number that lies on one.
pub(crate) fn first_cycle(
    alloc: Global,
    count: usize,
    links: &[Link],
) -> Result<Option<Vec<usize>>, AllocError>
    requires { AreWithin count links.now }
    ensures { IfOk result (λ o. option_map (λ ns. ns.items) o ≡ first_of_cycles (has_link links.now) (range_with_len 0 count)) }
{
    let candidates = candidates(alloc, count, links)?;
    for start in 0..count {
        if candidates[start] {
            let found = cycle_from(alloc, count, links, start)?;
            if found.is_some() {
                return Ok(found);
            }
        }
    }
    Ok(None)
}
