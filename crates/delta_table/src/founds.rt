//! The rows of an item's tuples, with the places of these.
ghost use Rattle.std.specs.Prelude.{◌≡◌, ◌+◌, ◌<◌, ◌≤◌, ◌++◌, [], length, map, drop, option_map, IfOk, IfSome, OnOk};
ghost use Rattle.std.specs.List.{All, cons_option};
ghost use Rattle.arena_cells.specs.Standing.{IsTermAt};
ghost use Rattle.numbered_terms.specs.Numbered.{tuples_at, IsTermSet};
ghost use Rattle.delta_table.specs.FoundRows.{is_few as few, few_row, found_row, founds_after, founds_from, founds as founds_of, row_at, AreRows};

use crate::places::with_place;
use numbered_terms::{NumberSet, NumberedTerms};
use std::alloc::{AllocError, Global};

/// A row of an item: the numbers of its values, and the places of its tuples among those of the item.
#[derive(Drop)]
pub(crate) struct Found {
    pub values: NumberSet,
    pub places: u64,
}

#[tactic(auto, using(crate::proofs::FoundRows::few_test))]
fn is_few(count: u64, width: u64) -> bool
    ensures { result ≡ few width count }
{
    1 < count && count <= width
}

// The row of chosen tuples, if they are two to `width`.
fn row_found(terms: &NumberedTerms, chosen: &[u32], places: u64, width: u64) -> Option<Found>
    requires few { length chosen.now ≤ 4 }
    requires chosen { All (IsTermAt terms.now) chosen.now }
    ensures row { option_map (row_at terms.now) result ≡ option_map (found_row places) (few_row width (tuples_at terms.now chosen.now)) }
    ensures sets { IfSome result (λ f. IsTermSet terms.now f.values) }
{
    if !is_few(chosen.len() as u64, width) {
        return None;
    }
    let values = terms.row_values(chosen)?;
    Some(Found { values, places })
}

fn push_found(
    terms: &NumberedTerms,
    rows: &mut Vec<Found>,
    chosen: &[u32],
    places: u64,
    width: u64,
) -> Result<(), AllocError>
    requires few { length chosen.now ≤ 4 }
    requires chosen { All (IsTermAt terms.now) chosen.now }
    requires sets { All (λ f. IsTermSet terms.now f.values) rows.old.items }
    ensures rows { IfOk result (λ _. map (row_at terms.now) rows.new.items ≡ map (row_at terms.now) rows.old.items ++ cons_option (option_map (found_row places) (few_row width (tuples_at terms.now chosen.now))) []) }
    ensures sets { IfOk result (λ _. All (λ f. IsTermSet terms.now f.values) rows.new.items) }
{
    if let Some(row) = row_found(terms, chosen, places, width) {
        rows.push(row)?;
    }
    Ok(())
}

// Appends the rows of the chosen tuples, whose places are given, with others from a place on. A choice of `width` tuples isn't gone on with.
fn push_rows(
    terms: &NumberedTerms,
    rows: &mut Vec<Found>,
    chosen: &mut Vec<u32>,
    places: u64,
    tuples: &[u32],
    at: usize,
    width: u64,
) -> Result<(), AllocError>
    requires few { length chosen.old.items ≤ width }
    requires width { width ≤ 4 }
    requires places { length tuples.now ≤ 64 }
    requires tuples { All (IsTermAt terms.now) tuples.now }
    requires chosen { All (IsTermAt terms.now) chosen.old.items }
    requires sets { All (λ f. IsTermSet terms.now f.values) rows.old.items }
    ensures rows { IfOk result (λ _. map (row_at terms.now) rows.new.items ≡ map (row_at terms.now) rows.old.items ++ founds_after width (tuples_at terms.now chosen.old.items) places at (drop at (tuples_at terms.now tuples.now))) }
    ensures sets { IfOk result (λ _. All (λ f. IsTermSet terms.now f.values) rows.new.items) }
    ensures chosen { OnOk result (chosen.new.items ≡ chosen.old.items) }
{
    if at >= tuples.len() {
        push_found(terms, rows, chosen, places, width)?;
        return Ok(());
    }
    if chosen.len() as u64 == width {
        push_found(terms, rows, chosen, places, width)?;
        return Ok(());
    }
    let count = chosen.len();
    chosen.push(tuples[at])?;
    let with_this = with_place(places, at as u64);
    push_rows(terms, rows, chosen, with_this, tuples, at + 1, width)?;
    chosen.truncate(count);
    push_rows(terms, rows, chosen, places, tuples, at + 1, width)?;
    Ok(())
}

/// The rows of tuples of which that at a place is the first.
pub(crate) fn rows_from(
    alloc: Global,
    terms: &NumberedTerms,
    tuples: &[u32],
    at: usize,
    width: u64,
) -> Result<Vec<Found>, AllocError>
    requires within { at < length tuples.now }
    requires few { length tuples.now ≤ 64 }
    requires tuples { All (IsTermAt terms.now) tuples.now }
    requires least_width { 1 ≤ width }
    requires most_width { width ≤ 4 }
    ensures { IfOk result (λ v. AreRows terms.now v.items (founds_from width (tuples_at terms.now tuples.now) at)) }
{
    let mut rows = Vec::new(alloc);
    let mut chosen = Vec::new(alloc);
    chosen.push(tuples[at])?;
    let places = with_place(0, at as u64);
    push_rows(terms, &mut rows, &mut chosen, places, tuples, at + 1, width)?;
    Ok(rows)
}

/// The rows of an item's tuples.
pub(crate) fn founds(
    alloc: Global,
    terms: &NumberedTerms,
    tuples: &[u32],
    width: u64,
) -> Result<Vec<Found>, AllocError>
    requires few { length tuples.now ≤ 64 }
    requires tuples { All (IsTermAt terms.now) tuples.now }
    requires least_width { 1 ≤ width }
    requires most_width { width ≤ 4 }
    ensures { IfOk result (λ v. AreRows terms.now v.items (founds_of width (tuples_at terms.now tuples.now))) }
{
    let mut rows = Vec::new(alloc);
    for at in 0..tuples.len() {
        let mut more = rows_from(alloc, terms, tuples, at, width)?;
        rows.append(&mut more)?;
    }
    Ok(rows)
}
