//! What candidates cost.
ghost use Rattle.std.specs.Prelude.{◌≡◌, ◌+◌, ◌≤◌, ◌<◌, ◌^◌, ℕ, List, length, map, IfOk, IfSome, option_map, slice_index_or};
ghost use Rattle.std.specs.List.{All};
ghost use Rattle.finite.specs.Finite as set;
ghost use Rattle.herbrand_laws.specs.Herbrand.{Item as Meaning};
ghost use Rattle.herbrand_laws.specs.Patterns.{TermSet};
ghost use Rattle.herbrand_laws.specs.Candidates.{least, lesser};
ghost use Rattle.numbered_terms.specs.Numbered.{set_at, IsTermSet};
ghost use Rattle.delta_table.specs.Chosen.{share as share_of, zipped, raised, cost_at};
ghost use Rattle.delta_table.specs.FoundRows.{tallies_at};
ghost use Rattle.delta_rows.specs.ValueOrder.{by_cost};

use crate::founds::Found;
use crate::item::Item;
use crate::places::count_outside;
use crate::sets::compare_sets;
use crate::tables::Rows;
use crate::tallies::{Tally, tally_rows};
use arena_cells::Cells;
use numbered_terms::{NumberSet, NumberSets};
use std::alloc::{AllocError, Global};
use std::cmp::Ordering;

// A quantifier inference for each quantifier of an item, of each row of a tally and of each tuple that isn't among those of the tally.
#[tactic(auto, using(crate::proofs::CostSteps::share_fits))]
fn share(item: &Item, tally: Tally) -> u128
    requires { length item.now.tuples ≤ 64 }
    ensures { result ≡ share_of item.now tally }
{
    let left = count_outside(item.tuples().as_slice(), tally.places);
    let count = u128::from(tally.rows) + u128::from(left);
    u128::from(item.quantifiers()) * count
}

// No memory holds so many items that a sum would not fit.
fn sum_of(left: u128, right: u128) -> Result<u128, AllocError>
    ensures { IfOk result (λ sum. sum ≡ left + right) }
{
    left.checked_add(right).ok_or(AllocError)
}

// Costs with the shares of an item.
#[tactic(auto, using(crate::proofs::CostSteps::zipped_more))]
fn with_shares(
    alloc: Global,
    costs: &[u128],
    tallies: &[Tally],
    item: &Item,
) -> Result<Vec<u128>, AllocError>
    requires as_many { length costs.now ≡ length tallies.now }
    requires few { length item.now.tuples ≤ 64 }
    ensures { IfOk result (λ v. v.items ≡ zipped (λ c t. c + share_of item.now t) costs.now tallies.now) }
{
    let mut sums = Vec::with_capacity(alloc, costs.len())?;
    for at in 0..costs.len() {
        let share = share(item, tallies[at]);
        sums.push(sum_of(costs[at], share)?)?;
    }
    Ok(sums)
}

// What the values cost, without items.
fn first_costs(alloc: Global, keys: &[NumberSet]) -> Result<Vec<u128>, AllocError>
    ensures { IfOk result (λ v. v.items ≡ map (λ (k : List ℕ). 1 + length k) keys.now) }
{
    let mut costs = Vec::with_capacity(alloc, keys.len())?;
    for key in keys {
        costs.push(1 + key.as_slice().len() as u128)?;
    }
    Ok(costs)
}

// Costs by the items so far: those that differ, and what is added to each of them.
#[derive(Drop)]
struct Sums {
    each: Vec<u128>,
    all: u128,
}

impl Sums {
    // Adds the shares of an item. Without rows its share is the same for each key, so many items without rows cost no lists.
    fn add(
        &mut self,
        alloc: Global,
        keys: &NumberSets,
        item: &Item,
        rows: &[Found],
    ) -> Result<(), AllocError>
        requires as_many { length self.old.each.items ≡ length keys.now }
        requires few { length item.now.tuples ≤ 64 }
        ensures { IfOk result (λ _. raised self.new.all self.new.each.items ≡ zipped (λ c t. c + share_of item.now t) (raised self.old.all self.old.each.items) (tallies_at keys.now rows.now)) }
    {
        if rows.is_empty() {
            self.all = sum_of(self.all, share(item, Tally::new()))?;
            return Ok(());
        }
        let tallies = tally_rows(alloc, keys, rows)?;
        self.each = with_shares(alloc, &self.each, &tallies, item)?;
        Ok(())
    }

    // The costs themselves.
    fn totals(&self, alloc: Global) -> Result<Vec<u128>, AllocError>
        ensures { IfOk result (λ v. v.items ≡ raised self.now.all self.now.each.items) }
    {
        let mut totals = Vec::with_capacity(alloc, self.each.len())?;
        for cost in &self.each {
            totals.push(sum_of(*cost, self.all)?)?;
        }
        Ok(totals)
    }
}

/// What each candidate costs, by the rows of the items.
pub(crate) fn costs(
    alloc: Global,
    keys: &NumberSets,
    items: &[Item],
    tables: &[Rows],
) -> Result<Vec<u128>, AllocError>
    requires as_many { length tables.now ≡ length items.now }
    requires few { All (λ (i : Meaning). length i.tuples ≤ 64) items.now }
    ensures { IfOk result (λ v. v.items ≡ map (λ k. cost_at k items.now tables.now) keys.now) }
{
    let each = first_costs(alloc, keys.as_slice())?;
    let mut sums = Sums { each, all: 0 };
    for at in 0..items.len() {
        sums.add(alloc, keys, &items[at], tables[at].as_slice())?;
    }
    sums.totals(alloc)
}

// Which of two candidates comes first. The terms of their values are looked at only where costs and numbers of values tie.
fn compare(
    alloc: Global,
    cells: &Cells,
    keys: &[NumberSet],
    costs: &[u128],
    at: usize,
    other: usize,
) -> Result<Ordering, AllocError>
    requires as_many { length costs.now ≡ length keys.now }
    requires sets { All (IsTermSet cells.now) keys.now }
    requires at { at < length keys.now }
    requires other { other < length keys.now }
    ensures { IfOk result (λ o. (c : TermSet → ℕ) → costs.now ≡ map (λ k. c (set_at cells.now k)) keys.now → o ≡ by_cost c (slice_index_or (map (set_at cells.now) keys.now) at set.empty) (slice_index_or (map (set_at cells.now) keys.now) other set.empty)) }
{
    match costs[at].cmp(&costs[other]) {
        Ordering::Equal => compare_sets(alloc, cells, &keys[at], &keys[other]),
        unequal => Ok(unequal),
    }
}

// The place of the lesser of a candidate and the least of others.
fn lesser_place(
    alloc: Global,
    cells: &Cells,
    keys: &[NumberSet],
    costs: &[u128],
    at: usize,
    least: Option<usize>,
) -> Result<usize, AllocError>
    requires as_many { length costs.now ≡ length keys.now }
    requires sets { All (IsTermSet cells.now) keys.now }
    requires within { at < length keys.now }
    requires least { IfSome least (λ k. k < length keys.now) }
    ensures within { IfOk result (λ k. k < length keys.now) }
    ensures value { IfOk result (λ k. (c : TermSet → ℕ) → costs.now ≡ map (λ k. c (set_at cells.now k)) keys.now → slice_index_or (map (set_at cells.now) keys.now) k set.empty ≡ lesser (by_cost c) (slice_index_or (map (set_at cells.now) keys.now) at set.empty) (option_map (λ k. slice_index_or (map (set_at cells.now) keys.now) k set.empty) least)) }
{
    let Some(other) = least else {
        return Ok(at);
    };
    let order = compare(alloc, cells, keys, costs, at, other)?;
    Ok(if order.is_gt() { other } else { at })
}

/// The place of the least candidate by the costs.
pub(crate) fn least_place(
    alloc: Global,
    cells: &Cells,
    keys: &[NumberSet],
    costs: &[u128],
) -> Result<Option<usize>, AllocError>
    requires as_many { length costs.now ≡ length keys.now }
    requires sets { All (IsTermSet cells.now) keys.now }
    ensures within { IfOk result (λ o. IfSome o (λ k. k < length keys.now)) }
    ensures value { IfOk result (λ o. (c : TermSet → ℕ) → costs.now ≡ map (λ k. c (set_at cells.now k)) keys.now → option_map (λ k. slice_index_or (map (set_at cells.now) keys.now) k set.empty) o ≡ least (by_cost c) (map (set_at cells.now) keys.now)) }
{
    let mut least = None;
    let mut at = keys.len();
    while at > 0 {
        at -= 1;
        least = Some(lesser_place(alloc, cells, keys, costs, at, least)?);
    }
    Ok(least)
}
