//! Where two lists of numbers begin with the same ones.
ghost use Rattle.std.specs.Prelude.{◌≡◌, ◌≤◌, length};
ghost use Rattle.arena_graph.specs.Runs.{IsSameRun, first_set};

use std::simd::prelude::*;

// So many numbers are compared at once.
const LANES: usize = 8;

// The place of the lowest bit that is set, or the number of lanes.
#[inline(always)]
fn first_set(mask: u64) -> usize
    ensures { result ≡ first_set mask LANES }
{
    if mask == 0 {
        LANES
    } else {
        mask.trailing_zeros() as usize
    }
}

// How many of the first numbers are the same, of as many as are compared at once.
#[inline(always)]
fn same_lanes(first: &[u32], second: &[u32]) -> usize
    requires first { LANES ≤ length first.now }
    requires second { LANES ≤ length second.now }
    ensures { IsSameRun first.now second.now result }
{
    let differ = u32x8::from_slice(first).simd_ne(u32x8::from_slice(second));
    first_set(differ.to_bitmask())
}

// The same one by one.
fn same_by_one(first: &[u32], second: &[u32]) -> usize
    ensures { IsSameRun first.now second.now result }
{
    let most = first.len().min(second.len());
    let mut run = 0;
    while run < most && first[run] == second[run] {
        run += 1;
    }
    run
}

/// How many of the first numbers are the same in both lists.
pub(crate) fn same_run(first: &[u32], second: &[u32]) -> usize
    ensures { IsSameRun first.now second.now result }
{
    let most = first.len().min(second.len());
    let mut run = 0;
    while LANES <= most - run {
        let more = same_lanes(&first[run..], &second[run..]);
        run += more;
        if more < LANES {
            return run;
        }
    }
    run + same_by_one(&first[run..], &second[run..])
}
