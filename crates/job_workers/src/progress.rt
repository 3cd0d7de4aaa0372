//! How far the workers of a window have come, for those that find no task ready.

use std::sync::{Condvar, Mutex, Wait};

// How many workers take or run tasks, how many tasks were taken, and whether one was seen ready that a worker at rest can take.
#[derive(Drop)]
struct Counts {
    busy: u64,
    taken: u64,
    has_more: bool,
}

/// What the workers of a window tell one another, so that one that finds no task ready can wait until one is. Nothing rests on it but how
/// long they wait.
#[derive(Drop)]
pub struct Progress {
    counts: Mutex<Counts>,
    changed: Condvar,
}

// One worker fewer is busy. The answer is true where none is.
fn leave_busy(counts: &mut Counts) -> bool {
    counts.busy = counts.busy.saturating_sub(1);
    counts.busy == 0
}

impl Progress {
    /// The progress of workers that have not begun.
    pub fn new() -> Progress {
        Progress {
            counts: Mutex::new(Counts {
                busy: 0,
                taken: 0,
                has_more: false,
            }),
            changed: Condvar::new(),
        }
    }

    /// Whether of so many tasks one may wait beside that which this worker takes next.
    pub fn has_waiting<W: Wait>(&self, rt: &W, tasks: u64) -> bool {
        let counts = self.counts.lock(rt);
        counts.taken.saturating_add(1) < tasks
    }

    /// Counts this worker as busy.
    pub fn begin<W: Wait>(&self, rt: &W) {
        let mut counts = self.counts.lock(rt);
        counts.busy = counts.busy.saturating_add(1);
    }

    /// Counts a task that this worker has taken. Where another one was ready then, a worker at rest is woken for it.
    pub fn note_taken<W: Wait>(&self, rt: &W, has_more: bool) {
        let mut counts = self.counts.lock(rt);
        counts.taken = counts.taken.saturating_add(1);
        if has_more {
            counts.has_more = true;
            drop(counts);
            self.changed.notify_one();
        }
    }

    /// Counts this worker, which leaves, as busy no more.
    pub fn end<W: Wait>(&self, rt: &W) {
        let mut counts = self.counts.lock(rt);
        let is_last = leave_busy(&mut counts);
        drop(counts);
        if is_last {
            self.changed.notify_all();
        }
    }

    /// Counts this worker as busy no more, and waits until a task is ready for it, or no worker is busy. The answer is true where one is: the
    /// worker is busy again.
    pub fn rest<W: Wait>(&self, rt: &W) -> bool {
        let mut counts = self.counts.lock(rt);
        if leave_busy(&mut counts) {
            drop(counts);
            self.changed.notify_all();
            return false;
        }
        let mut counts = self
            .changed
            .wait_while(rt, counts, |counts| !counts.has_more && counts.busy != 0);
        if !counts.has_more {
            return false;
        }
        counts.has_more = false;
        counts.busy = counts.busy.saturating_add(1);
        true
    }
}
