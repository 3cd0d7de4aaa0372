//! The best candidate for a cut.
ghost use Rattle.std.specs.Prelude.{◌≡◌, ◌≤◌, length, option_map, IfOk, IfSome};
ghost use Rattle.std.specs.List.{All};
ghost use Rattle.herbrand_laws.specs.Herbrand.{Item as Meaning};
ghost use Rattle.herbrand_laws.specs.Candidates.{best as best_values};
ghost use Rattle.numbered_terms.specs.Numbered.{IsTermSet};
ghost use Rattle.herbrand_laws.specs.Counted.{counted};
ghost use Rattle.delta_table.specs.Items.{IsItem};
ghost use Rattle.delta_table.specs.Chosen.{zipped, pattern_of_places, patterns_at, patterns_by_numbers, left_at, rest_at, made_candidate, candidate_of};
ghost use Rattle.delta_table.specs.FoundRows.{tally_at};

use crate::costs::{costs, least_place};
use crate::founds::Found;
use crate::instances::Instances;
use crate::item::Item;
use crate::items::Items;
use crate::pattern_lists::Patterns;
use crate::places::{tuples_at, tuples_outside};
use crate::sets::values_at;
use crate::tables::{Rows, Table, tabulate};
use crate::tuples::Tuples;
use delta_rows::{Row, Values, delta};
use fol::Terms;
use numbered_terms::NumberSet;
use std::alloc::{AllocError, Global};
use std::thread::Threads;

/// A candidate for a cut: a set of values, the patterns of each item whose rows have just these values, the tuples of each item with quantifiers
/// that these don't cover, and how many quantifier inferences the proof with the cut has. An item without quantifiers is among the rest with no
/// tuple.
pub struct Candidate {
    pub values: Values,
    pub patterns: Patterns,
    pub rest: Instances,
    pub cost: u128,
}

impl Drop for Candidate {
    fn drop(self) {
        let Candidate {
            values,
            patterns,
            rest,
            cost: _,
        } = self;
        drop(values);
        drop(patterns);
        drop(rest);
    }
}

// The pattern of a row's tuples.
fn pattern_of(alloc: Global, tuples: &[Terms], places: u64) -> Result<Option<Terms>, AllocError>
    requires { length tuples.now ≤ 64 }
    ensures { IfOk result (λ o. o ≡ pattern_of_places tuples.now places) }
{
    let chosen = tuples_at(alloc, tuples, places)?;
    match delta(alloc, &chosen)? {
        None => Ok(None),
        Some(Row { pattern, values: _ }) => Ok(Some(pattern)),
    }
}

// The patterns of the rows that have these values.
fn patterns_of(
    alloc: Global,
    tuples: &[Terms],
    rows: &[Found],
    values: &NumberSet,
) -> Result<Vec<Terms>, AllocError>
    requires { length tuples.now ≤ 64 }
    ensures { IfOk result (λ v. v.items ≡ patterns_at tuples.now values.now rows.now) }
{
    let mut patterns = Vec::new(alloc);
    for row in rows {
        if row.values == *values {
            if let Some(pattern) = pattern_of(alloc, tuples, row.places)? {
                patterns.push(pattern)?;
            }
        }
    }
    Ok(patterns)
}

// The places of the tuples of the rows that have these values.
fn covered(rows: &[Found], values: &NumberSet) -> u64
    ensures { result ≡ (tally_at values.now rows.now).places }
{
    let mut places = 0;
    for row in rows {
        if row.values == *values {
            places |= row.places;
        }
    }
    places
}

// The tuples that rows with these values don't have. A formula without quantifiers is its own instance, so none of its tuples is left.
fn left_of(
    alloc: Global,
    item: &Item,
    rows: &[Found],
    values: &NumberSet,
) -> Result<Vec<Terms>, AllocError>
    requires { length item.now.tuples ≤ 64 }
    ensures { IfOk result (λ v. v.items ≡ left_at values.now item.now rows.now) }
{
    if item.quantifiers() == 0 {
        return Ok(Vec::new(alloc));
    }
    let places = covered(rows, values);
    tuples_outside(alloc, item.tuples().as_slice(), places)
}

// The item with these tuples.
fn rest_of(
    alloc: Global,
    item: &Item,
    rows: &[Found],
    values: &NumberSet,
) -> Result<Item, AllocError>
    requires { length item.now.tuples ≤ 64 }
    ensures { IfOk result (λ i. i ≡ rest_at values.now item.now rows.now) }
{
    item.known();
    let tuples = left_of(alloc, item, rows, values)?;
    let formula = item.formula().copy()?;
    Ok(Item::new(item.side(), formula, Tuples::from_rising(tuples)))
}

// The patterns of each item.
#[tactic(auto, using(crate::proofs::CostSteps::zipped_more))]
fn all_patterns(
    alloc: Global,
    items: &[Item],
    tables: &[Rows],
    values: &NumberSet,
) -> Result<Patterns, AllocError>
    requires as_many { length tables.now ≡ length items.now }
    requires few { All (λ (i : Meaning). length i.tuples ≤ 64) items.now }
    ensures { IfOk result (λ p. p ≡ zipped (patterns_by_numbers values.now) items.now tables.now) }
{
    let mut patterns = Vec::with_capacity(alloc, items.len())?;
    for at in 0..items.len() {
        let tuples = items[at].tuples().as_slice();
        let list = patterns_of(alloc, tuples, tables[at].as_slice(), values)?;
        patterns.push(Tuples::from_vec(list))?;
    }
    Ok(Patterns::from_vec(patterns))
}

// The rest of each item.
#[tactic(auto, using(crate::proofs::CostSteps::zipped_more))]
fn all_rests(
    alloc: Global,
    items: &[Item],
    tables: &[Rows],
    values: &NumberSet,
) -> Result<Instances, AllocError>
    requires as_many { length tables.now ≡ length items.now }
    requires few { All (λ (i : Meaning). length i.tuples ≤ 64) items.now }
    ensures { IfOk result (λ r. r ≡ zipped (rest_at values.now) items.now tables.now) }
{
    let mut rests = Vec::with_capacity(alloc, items.len())?;
    for at in 0..items.len() {
        rests.push(rest_of(alloc, &items[at], tables[at].as_slice(), values)?)?;
    }
    Ok(Instances::new(Items::from_vec(rests)))
}

// The candidate of a set of values, with its cost.
fn candidate_at(
    alloc: Global,
    items: &[Item],
    table: &Table,
    key: &NumberSet,
    cost: u128,
) -> Result<Candidate, AllocError>
    requires as_many { length table.now.rows.items ≡ length items.now }
    requires few { All (λ (i : Meaning). length i.tuples ≤ 64) items.now }
    requires key { IsTermSet table.now.cells key.now }
    ensures { IfOk result (λ c. c ≡ made_candidate table.now key.now items.now cost) }
{
    let patterns = all_patterns(alloc, items, &table.rows, key)?;
    let rest = all_rests(alloc, items, &table.rows, key)?;
    let values = values_at(alloc, &table.cells, key)?;
    Ok(Candidate {
        values,
        patterns,
        rest,
        cost,
    })
}

// Each item is as items are always, and has few tuples.
fn known_items(items: &[Item])
    requires { counted items.now ≤ 48 }
    ensures known { All IsItem items.now }
    ensures few { All (λ (i : Meaning). length i.tuples ≤ 64) items.now }
{
    for item in items {
        item.known();
    }
}

/// The candidate of least cost, of those of one cost one with the fewest values, and of these the one whose rising list of values is least. All
/// rows of two to `width` tuples are looked at. There is none exactly where there is no row. Several threads look for the rows of an item of
/// many tuples; the answer is the same whatever they do.
pub fn best<R: Threads + Sync>(
    rt: &R,
    alloc: Global,
    instances: &Instances,
    width: u64,
) -> Result<Option<Candidate>, AllocError>
    requires counted { counted instances.now ≤ 48 }
    requires least_width { 2 ≤ width }
    requires most_width { width ≤ 4 }
    ensures { IfOk result (λ o. o ≡ option_map (candidate_of width instances.now) (best_values width instances.now)) }
{
    let items = instances.items();
    known_items(items);
    let table = tabulate(rt, alloc, items, width)?;
    let costs = costs(alloc, &table.keys, items, &table.rows)?;
    let keys = table.keys.as_slice();
    let Some(at) = least_place(alloc, &table.cells, keys, &costs)? else {
        return Ok(None);
    };
    let candidate = candidate_at(alloc, items, &table, &keys[at], costs[at])?;
    Ok(Some(candidate))
}
