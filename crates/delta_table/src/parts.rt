//! The rows of an item by several threads, each for some of the first tuples.
ghost use Rattle.std.specs.Prelude.{◌≡◌, ◌<◌, ◌≤◌, ◌+◌, ℕ, List, Result, length, vec_len, slice_index_or, IfOk};
ghost use Rattle.std.specs.List.{All};
ghost use Rattle.std.specs.declared.alloc.AllocError.{AllocError as NoMemory};
ghost use Rattle.arena_cells.specs.Standing.{IsTermAt};
ghost use Rattle.numbered_terms.specs.Numbered.{tuples_at};
ghost use Rattle.delta_table.specs.declared.founds.Found.{Found as Record};
ghost use Rattle.delta_table.specs.FoundRows.{founds_from, founds as founds_of, AreRows};

use crate::founds::rows_from;
use crate::tables::Rows;
use numbered_terms::NumberedTerms;
use rayon::prelude::*;
use std::alloc::{AllocError, Global};
use std::thread::Threads;

// The rows by the place of their first tuple. Those of one first tuple are work enough for a thread.
fn parts<R: Threads + Sync>(
    rt: &R,
    alloc: Global,
    terms: &NumberedTerms,
    tuples: &[u32],
    width: u64,
) -> Result<Vec<Result<Rows, AllocError>>, AllocError>
    requires few { length tuples.now ≤ 64 }
    requires tuples { All (IsTermAt terms.now) tuples.now }
    requires least_width { 1 ≤ width }
    requires most_width { width ≤ 4 }
    ensures len { IfOk result (λ v. vec_len v ≡ length tuples.now) }
    ensures each { IfOk result (λ v. (k : ℕ) (d : Result (List Record) NoMemory) → k < length tuples.now → IfOk (slice_index_or v.items k d) (λ rows. AreRows terms.now rows (founds_from width (tuples_at terms.now tuples.now) k))) }
{
    (0..tuples.len())
        .into_par_iter()
        .with_min_len(1)
        .map(
            |at: usize| -> Result<Rows, AllocError>
                requires { (at < length tuples.now) × (length tuples.now ≤ 64) × All (IsTermAt terms.now) tuples.now × (1 ≤ width) × (width ≤ 4) }
                ensures { IfOk result (λ rows. AreRows terms.entry.now rows (founds_from width (tuples_at terms.entry.now tuples.entry.now) at)) }
            {
                let rows = rows_from(alloc, terms, tuples, at, width)?;
                Ok(Rows::from_vec(rows))
            },
        )
        .collect(rt, alloc)
}

/// The rows of an item's tuples, by several threads. They come in one order, whatever the threads do.
pub(crate) fn founds_by_threads<R: Threads + Sync>(
    rt: &R,
    alloc: Global,
    terms: &NumberedTerms,
    tuples: &[u32],
    width: u64,
) -> Result<Rows, AllocError>
    requires few { length tuples.now ≤ 64 }
    requires tuples { All (IsTermAt terms.now) tuples.now }
    requires least_width { 1 ≤ width }
    requires most_width { width ≤ 4 }
    ensures { IfOk result (λ rows. AreRows terms.now rows (founds_of width (tuples_at terms.now tuples.now))) }
{
    let mut parts = parts(rt, alloc, terms, tuples, width)?;
    let mut rows = Vec::new(alloc);
    for _at in 0..tuples.len() {
        let part = parts.remove(0)?;
        let mut more = part.into_vec();
        rows.append(&mut more)?;
    }
    Ok(Rows::from_vec(rows))
}
