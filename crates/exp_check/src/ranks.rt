//! Ranks of numbers that rise along links, as far as there are such.
ghost use Rattle.std.specs.Prelude.{◌≡◌, ◌<◌, ℕ, length, false, true, slice_index_or, IfOk, IsTrue};
ghost use Rattle.std.specs.List.{All, list_any};
ghost use Rattle.exp_check.specs.Distances.{leads_to};
ghost use Rattle.exp_check.specs.Links.{AreWithin};
ghost use Rattle.exp_check.specs.Ranks.{is_level, NeverFall};

use crate::links::Link;
use std::alloc::{AllocError, Global};

// The links from the other end, in rising order.
fn turned(alloc: Global, links: &[Link]) -> Result<Vec<Link>, AllocError>
    ensures { IfOk result (λ ls. (n : ℕ) → AreWithin n links.now → AreWithin n ls.items) }
{
    let mut turned = Vec::with_capacity(alloc, links.len())?;
    for link in links {
        turned.push(Link {
            before: link.after,
            after: link.before,
        })?;
    }
    turned.sort_unstable();
    Ok(turned)
}

// For each number how many links lead to it.
fn counts_of(alloc: Global, count: usize, links: &[Link]) -> Result<Vec<usize>, AllocError>
    requires { AreWithin count links.now }
    ensures { IfOk result (λ counts. length counts.items ≡ count) }
{
    let mut counts: Vec<usize> = vec![in alloc; 0; count]?;
    for link in links {
        counts[link.after] = counts[link.after].saturating_add(1);
    }
    Ok(counts)
}

// The numbers to which no link leads.
fn sources(alloc: Global, counts: &[usize]) -> Result<Vec<usize>, AllocError>
    ensures { IfOk result (λ ready. All (λ i. i < length counts.now) ready.items) }
{
    let mut ready = Vec::new(alloc);
    for number in 0..counts.len() {
        if counts[number] == 0 {
            ready.push(number)?;
        }
    }
    Ok(ready)
}

// Takes the links from a number away. Those to which none leads any more are ready.
fn take_away(
    links: &[Link],
    number: usize,
    counts: &mut [usize],
    ready: &mut Vec<usize>,
) -> Result<(), AllocError>
    requires within { AreWithin (length counts.old) links.now }
    requires numbers { All (λ i. i < length counts.old) ready.old.items }
    ensures same { length counts.new ≡ length counts.old }
    ensures numbers { IfOk result (λ _. All (λ i. i < length counts.old) ready.new.items) }
{
    let first = links.partition_point(|link| link.before < number);
    for link in &links[first..] {
        if link.before != number {
            break;
        }
        counts[link.after] = counts[link.after].saturating_sub(1);
        if counts[link.after] == 0 {
            ready.push(link.after)?;
        }
    }
    Ok(())
}

// The place of each number in an order along the links. The numbers that stand on a cycle or after one have the count for their place.
fn places(alloc: Global, count: usize, links: &[Link]) -> Result<Vec<usize>, AllocError>
    requires { AreWithin count links.now }
    ensures { IfOk result (λ places. length places.items ≡ count) }
{
    let mut counts = counts_of(alloc, count, links)?;
    let mut ready = sources(alloc, &counts)?;
    let mut places = vec![in alloc; count; count]?;
    for place in 0..count {
        match ready.pop() {
            Some(number) => {
                places[number] = place;
                take_away(links, number, &mut counts, &mut ready)?;
            }
            None => break,
        }
    }
    Ok(places)
}

// Ranks that rise along each link but those between two numbers that stand on cycles or between two of them.
fn ranks(alloc: Global, count: usize, links: &[Link]) -> Result<Vec<usize>, AllocError>
    requires { AreWithin count links.now }
    ensures { IfOk result (λ ranks. length ranks.items ≡ count) }
{
    let places_before = places(alloc, count, links)?;
    let turned = turned(alloc, links)?;
    let places_after = places(alloc, count, &turned)?;
    let mut ranks = Vec::with_capacity(alloc, count)?;
    for number in 0..count {
        let before = places_before[number];
        let after = count.saturating_sub(places_after[number]);
        ranks.push(if before < count {
            before
        } else {
            count.saturating_add(after)
        })?;
    }
    Ok(ranks)
}

// Whether no rank falls along a link.
fn never_falls(ranks: &[usize], links: &[Link]) -> bool
    requires { AreWithin (length ranks.now) links.now }
    ensures { IsTrue result → NeverFall ranks.now links.now }
{
    for link in links {
        if ranks[link.before] > ranks[link.after] {
            return false;
        }
    }
    true
}

// The numbers from which a link leads along which the rank stays.
fn level_at(alloc: Global, ranks: &[usize], links: &[Link]) -> Result<Vec<bool>, AllocError>
    requires { AreWithin (length ranks.now) links.now }
    ensures count { IfOk result (λ bs. length bs.items ≡ length ranks.now) }
    ensures level { IfOk result (λ bs. (i : ℕ) → slice_index_or bs.items i false ≡ list_any (is_level ranks.now i) links.now) }
{
    let mut level = vec![in alloc; false; ranks.len()]?;
    for link in links {
        if ranks[link.before] == ranks[link.after] {
            level[link.before] = true;
        }
    }
    Ok(level)
}

/// The numbers that may lie on a cycle: none of the others does. Where there is no cycle it is none at all, found in O(n log n) steps for n
/// links.
pub(crate) fn candidates(
    alloc: Global,
    count: usize,
    links: &[Link],
) -> Result<Vec<bool>, AllocError>
    requires { AreWithin count links.now }
    ensures count { IfOk result (λ bs. length bs.items ≡ count) }
    ensures others { IfOk result (λ bs. (i k : ℕ) → i < count → slice_index_or bs.items i false ≡ false → leads_to links.now count k i i ≡ false) }
{
    let ranks = ranks(alloc, count, links)?;
    if never_falls(&ranks, links) {
        level_at(alloc, &ranks, links)
    } else {
        Ok(vec![in alloc; true; count]?)
    }
}
