//! The values that a job is given.
ghost use Rattle.std.specs.Prelude.{◌≡◌, true, List, map, IfOk, Some, is_some, All};
ghost use Rattle.std.specs.List.{list_all};
ghost use Rattle.job_workers.specs.Needs.{is_met, follows, may_begin, meaning_of, AreGiven, OnValue, HoldFitting};
ghost use Rattle.job_workers.specs.Records.{slot_at};

use crate::runners::Runner;
use crate::tasks::{Need, Task};
use std::alloc::{AllocError, Global};

// Whether something stands in the slot at the place.
fn is_done_at<P, H>(slots: &[Option<(P, H)>], place: u64) -> bool
    ensures { result ≡ is_some (slot_at slots.now place) }
{
    let place = place as usize;
    place < slots.len() && slots[place].is_some()
}

// Whether the need is met by what stands in the slots.
fn is_met<P, H>(slots: &[Option<(P, H)>], need: &Need<H>) -> bool
    ensures { result ≡ is_met (λ place. is_some (slot_at slots.now place)) need.now }
{
    match need {
        Need::Value(_) => true,
        Need::Task(place) => is_done_at(slots, *place),
    }
}

// Whether all needs are met.
fn are_met<P, H>(slots: &[Option<(P, H)>], needs: &[Need<H>]) -> bool
    ensures { result ≡ list_all (is_met (λ place. is_some (slot_at slots.now place))) needs.now }
{
    needs.iter().all(|need| is_met(slots, need))
}

// Whether the task that a task follows is done.
fn has_followed<P, H>(slots: &[Option<(P, H)>], after: Option<u64>) -> bool
    ensures { result ≡ follows (λ place. is_some (slot_at slots.now place)) after }
{
    match after {
        None => true,
        Some(place) => is_done_at(slots, place),
    }
}

// Whether all needs of the task are met, and the task that it follows is done.
pub fn may_begin<P, J, H>(slots: &[Option<(P, H)>], task: &Task<J, H>) -> bool
    ensures { result ≡ may_begin (λ place. is_some (slot_at slots.now place)) task.now }
{
    are_met(slots, &task.needs) && has_followed(slots, task.after)
}

// The value that a need that is met stands for.
fn value_of<'a, P, H>(slots: &'a [Option<(P, H)>], need: &'a Need<H>) -> &'a H
    requires { is_met (λ place. is_some (slot_at slots.now place)) need.now ≡ true }
    ensures { meaning_of (λ held. held) (slot_at slots.now) need.now ≡ Some result.now }
{
    match need {
        Need::Value(held) => held,
        Need::Task(place) => match &slots[*place as usize] {
            Some((_, held)) => held,
            None => unreachable!(),
        },
    }
}

// Copies of the values that needs that are met stand for.
pub fn gather<R: Runner>(
    alloc: Global,
    runner: &R,
    slots: &[Option<(R::Reply, R::Held)>],
    needs: &[Need<R::Held>],
) -> Result<Vec<R::Held>, AllocError>
    requires met { list_all (is_met (λ place. is_some (slot_at slots.now place))) needs.now ≡ true }
    requires values { All (OnValue (R.HeldFits (R.home runner.now))) needs.now }
    requires held { HoldFitting (R.HeldFits (R.home runner.now)) (slot_at slots.now) }
    ensures given { IfOk result (λ given. AreGiven R.sense (slot_at slots.now) needs.now (map R.sense given.items)) }
    ensures fits { IfOk result (λ given. All (R.HeldFits (R.home runner.now)) given.items) }
{
    let mut given = Vec::with_capacity(alloc, needs.len())?;
    for need in needs {
        given.push_reserved(runner.keep(alloc, value_of(slots, need))?);
    }
    Ok(given)
}
