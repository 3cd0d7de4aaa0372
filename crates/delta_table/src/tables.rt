//! The rows of all items.
ghost use Rattle.std.specs.Prelude.{◌≡◌, ◌≤◌, ◌||◌, ℕ, Bool, List, length, map, IfOk, OnOk};
ghost use Rattle.std.specs.List.{All, list_any};
ghost use Rattle.herbrand_laws.specs.Herbrand.{Item as Meaning};
ghost use Rattle.arena_cells.specs.Standing.{IsTermAt};
ghost use Rattle.numbered_terms.specs.Numbered.{tuples_at};
ghost use Rattle.delta_table.specs.FoundRows.{founds as founds_of, AreRows, AreTables, numbers_in, all_numbers};
ghost use Rattle.delta_table.specs.Tables.{IsTable};

use crate::founds::{Found, founds};
use crate::item::Item;
use crate::numbering::{NumberedItems, numbered};
use crate::parts::founds_by_threads;
use arena_cells::{Cells, Numbers};
use numbered_terms::{NumberSets, NumberedTerms};
use std::alloc::{AllocError, Global};
use std::marker::Model;
use std::thread::Threads;

/// The rows of an item.
#[derive(Drop)]
pub(crate) struct Rows {
    items: Vec<Found>,
}

impl Model for Rows {
    ghost use Rattle.std.specs.Prelude.{List};
    ghost use Rattle.std.specs.Coded.{codes};
    ghost use Rattle.delta_table.specs.declared.founds.Found.{Found as Record};
    ghost use Rattle.delta_table.specs.contracts.founds.Found as found;

    ghost Value = { List Record };

    ghost coded = { Prim.hlevel (codes, found.the_row.coded) };

    ghost view = { λ a. a.items.items };
}

impl Rows {
    pub fn from_vec(items: Vec<Found>) -> Rows
        ensures { result ≡ items.items }
    {
        Rows { items }
    }

    pub fn as_slice(&self) -> &[Found]
        ensures { result.now ≡ self.now }
    {
        self.items.as_slice()
    }

    pub fn into_vec(self) -> Vec<Found>
        ensures { result.items ≡ self }
    {
        let Rows { items } = self;
        items
    }
}

// So few tuples have their rows sooner than threads would start.
const FEW: usize = 12;

fn rows_of_item<R: Threads + Sync>(
    rt: &R,
    alloc: Global,
    terms: &NumberedTerms,
    tuples: &[u32],
    width: u64,
) -> Result<Rows, AllocError>
    requires few { length tuples.now ≤ 64 }
    requires tuples { All (IsTermAt terms.now) tuples.now }
    requires least_width { 1 ≤ width }
    requires most_width { width ≤ 4 }
    ensures { IfOk result (λ rows. AreRows terms.now rows (founds_of width (tuples_at terms.now tuples.now))) }
{
    if tuples.len() > FEW {
        return founds_by_threads(rt, alloc, terms, tuples, width);
    }
    let rows = founds(alloc, terms, tuples, width)?;
    Ok(Rows::from_vec(rows))
}

// The rows of each item, by the numbers of its tuples.
fn tables<R: Threads + Sync>(
    rt: &R,
    alloc: Global,
    terms: &NumberedTerms,
    numbers: &[Numbers],
    width: u64,
) -> Result<Vec<Rows>, AllocError>
    requires few { All (λ (ns : List ℕ). length ns ≤ 64) numbers.now }
    requires tuples { All (All (IsTermAt terms.now)) numbers.now }
    requires least_width { 1 ≤ width }
    requires most_width { width ≤ 4 }
    ensures { IfOk result (λ v. AreTables terms.now v.items (map (λ ns. founds_of width (tuples_at terms.now ns)) numbers.now)) }
{
    let mut tables = Vec::with_capacity(alloc, numbers.len())?;
    for tuples in numbers {
        tables.push(rows_of_item(rt, alloc, terms, tuples.as_slice(), width)?)?;
    }
    Ok(tables)
}

fn put_values(keys: &mut NumberSets, rows: &[Found]) -> Result<(), AllocError>
    ensures { OnOk result ((p : List ℕ → Bool) → list_any p keys.new ≡ (list_any p keys.old || list_any p (numbers_in rows.now))) }
{
    for row in rows {
        keys.put(row.values.copy())?;
    }
    Ok(())
}

// The sets of values that rows have, each once.
fn keys(alloc: Global, tables: &[Rows]) -> Result<NumberSets, AllocError>
    ensures { IfOk result (λ v. (p : List ℕ → Bool) → list_any p v ≡ list_any p (all_numbers tables.now)) }
{
    let mut keys = NumberSets::new(alloc);
    for rows in tables {
        put_values(&mut keys, rows.as_slice())?;
    }
    Ok(keys)
}

/// A delta table: the rows of each item, the sets of values that they have, each once, and the cells in which the terms are numbered.
pub(crate) struct Table {
    pub cells: Cells,
    pub rows: Vec<Rows>,
    pub keys: NumberSets,
}

impl Drop for Table {
    fn drop(self) {
        let Table { cells, rows, keys } = self;
        drop(cells);
        drop(rows);
        drop(keys);
    }
}

/// The delta table of items.
pub(crate) fn tabulate<R: Threads + Sync>(
    rt: &R,
    alloc: Global,
    items: &[Item],
    width: u64,
) -> Result<Table, AllocError>
    requires few { All (λ (i : Meaning). length i.tuples ≤ 64) items.now }
    requires least_width { 1 ≤ width }
    requires most_width { width ≤ 4 }
    ensures { IfOk result (λ t. IsTable width items.now t) }
{
    let NumberedItems {
        cells,
        terms,
        tuples,
    } = numbered(alloc, items)?;
    let rows = tables(rt, alloc, &terms, &tuples, width)?;
    let keys = keys(alloc, &rows)?;
    cells.known();
    Ok(Table { cells, rows, keys })
}
