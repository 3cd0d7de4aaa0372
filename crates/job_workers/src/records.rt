//! The events of a board, kept with a mark and a slot for each task.
ghost use Rattle.std.specs.Prelude.{◌≡◌, ◌≢◌, ℕ, ◌+◌, ◌*◌, ◌<◌, ◌≤◌, ◌^◌, false, List, [], ◌∷◌, ◌++◌, length, map, None, IfOk, MatchBool, MatchOption, replicate, vec_capacity};
ghost use Rattle.job_workers.specs.Events.{is_taken, is_done, put_of};

use crate::given::may_begin;
use crate::tasks::Task;
use std::alloc::{AllocError, Global};
use std::marker::Model;
use std::snapshot::Snapshot;

// A turn that changed the board. The values of a put stand in the task's slot, and the step has them for contracts alone.
#[derive(Drop)]
pub enum Step<P, H> {
    Took(u64),
    Done(u64, Snapshot<(P, H)>),
}

// Which tasks were taken, what was put for those that are done, and the events that say so. Contracts see the number of tasks and the
// events. There is room for all events that there can be.
#[derive(Drop)]
pub struct Records<P, H> {
    steps: Vec<Step<P, H>>,
    taken: Vec<bool>,
    slots: Vec<Option<(P, H)>>,
}

impl<P, H> Model for Records<P, H> {
    ghost use Rattle.std.specs.Prelude.{length, map, ◌≤◌, ◌*◌, vec_capacity};
    ghost use Rattle.job_workers.specs.Records.{event_of, Agree, History};

    ghost Value = { History P H };

    ghost view = { λ r. record { tasks = length r.slots.items; events = map event_of r.steps.items } };

    ghost invariant = { λ r. Agree (map event_of r.steps.items) r.taken.items r.slots.items × (2 * length r.slots.items ≤ vec_capacity r.steps) };
}

impl<P: Drop, H: Drop> Records<P, H> {
    ghost use Rattle.job_workers.specs.Records.{slot_at, History};
    ghost use Rattle.job_workers.specs.Machine.{IsIdle, IsFirstReady};
    ghost use Rattle.job_workers.specs.declared.events.Event.TheVariants.{Take, Put};

    // The records of so many tasks, none of which is taken.
    pub fn new(alloc: Global, tasks: usize) -> Result<Records<P, H>, AllocError>
        requires { tasks < 2 ^ 63 }
        ensures { IfOk result (λ made. made ≡ record { tasks = tasks; events = [] }) }
    {
        let steps = Vec::with_capacity(alloc, 2 * tasks)?;
        let taken = vec![in alloc; false; tasks]?;
        let slots = empty_slots(alloc, tasks)?;
        Ok(Records {
            steps,
            taken,
            slots,
        })
    }

    // How many events there are.
    pub fn count(&self) -> usize
        ensures length { result ≡ length self.now.events }
        ensures bound { result < 2 ^ 63 }
    {
        self.steps.len()
    }

    // Whether the task was taken.
    pub fn is_taken(&self, place: usize) -> bool
        requires { place < self.now.tasks }
        ensures { result ≡ is_taken place self.now.events }
    {
        self.taken[place]
    }

    // Whether the task is done.
    fn is_done(&self, place: usize) -> bool
        requires { place < self.now.tasks }
        ensures { result ≡ is_done place self.now.events }
    {
        self.slots[place].is_some()
    }

    // What was put for each task.
    pub fn slots(&self) -> &[Option<(P, H)>]
        ensures length { length result.now ≡ self.now.tasks }
        ensures puts { slot_at result.now ≡ put_of self.now.events }
    {
        &self.slots
    }

    // The same, by value.
    pub fn into_slots(self) -> Vec<Option<(P, H)>>
        ensures length { length result.items ≡ self.tasks }
        ensures puts { slot_at result.items ≡ put_of self.events }
    {
        let Records {
            steps: _,
            taken: _,
            slots,
        } = self;
        slots
    }

    // The first waiting task that may begin.
    pub fn first_ready<J>(&self, tasks: &[Task<J, H>]) -> Option<usize>
        requires { length tasks.now ≡ self.now.tasks }
        ensures { MatchOption result (IsIdle tasks.now self.now.events) (IsFirstReady tasks.now self.now.events) }
    {
        for (place, task) in tasks.iter().enumerate() {
            if !self.is_taken(place) && may_begin(self.slots(), task) {
                return Some(place);
            }
        }
        None
    }

    // Marks the task as taken.
    pub fn take(&mut self, place: usize)
        requires within { place < self.old.tasks }
        requires waits { is_taken place self.old.events ≡ false }
        ensures { self.new ≡ record self.old { events = self.old.events ++ Take place ∷ [] } }
    {
        self.steps.push_reserved(Step::Took(place as u64));
        self.taken[place] = true;
    }

    // Marks the task as done, unless it is, with its reply and the value that it holds.
    pub fn put(&mut self, place: usize, reply: P, held: H)
        requires { place < self.old.tasks }
        ensures same { self.new.tasks ≡ self.old.tasks }
        ensures put { MatchBool (is_done place self.old.events) (self.new.events ≡ self.old.events) (self.new.events ≡ self.old.events ++ Put place reply held ∷ []) }
    {
        if !self.is_done(place) {
            self.finish(place, reply, held);
        }
    }

    // Marks a task that isn't done as done.
    fn finish(&mut self, place: usize, reply: P, held: H)
        requires within { place < self.old.tasks }
        requires open { is_done place self.old.events ≡ false }
        ensures { self.new ≡ record self.old { events = self.old.events ++ Put place reply held ∷ [] } }
    {
        let answer = (reply, held);
        self.steps
            .push_reserved(Step::Done(place as u64, Snapshot::of(&answer)));
        self.slots[place] = Some(answer);
    }
}

// As many empty slots.
fn empty_slots<T: Drop>(alloc: Global, count: usize) -> Result<Vec<Option<T>>, AllocError>
    ensures { IfOk result (λ slots. slots.items ≡ replicate count None) }
{
    let mut slots = Vec::with_capacity(alloc, count)?;
    for _ in 0..count {
        slots.push_reserved(None);
    }
    Ok(slots)
}
