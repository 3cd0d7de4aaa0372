//! Which eliminations workers are at, so that none is done twice side by side.

use std::alloc::Global;
use std::sync::{Condvar, Mutex, Wait};

// An elimination that a worker is at: its own number, the number of its proof, and its budget.
#[derive(Drop)]
struct Entry {
    id: u64,
    proof: u64,
    budget: u64,
}

#[derive(Drop)]
struct Entries {
    entries: Vec<Entry>,
    next: u64,
}

/// The eliminations that workers of all sessions are at. A worker that would begin one that another is at waits until that one has ended, and
/// finds then what it came to. Nothing rests on it but how long workers wait.
#[derive(Drop)]
pub struct Begun {
    entries: Mutex<Entries>,
    ended: Condvar,
}

// Whether the elimination with the number is still there.
fn has(entries: &Entries, id: u64) -> bool {
    entries.entries.iter().any(|entry| entry.id == id)
}

// An elimination in the proof by a budget that is no greater.
fn same(entries: &Entries, proof: u64, budget: u64) -> Option<u64> {
    for entry in entries.entries.iter() {
        if entry.proof == proof && entry.budget <= budget {
            return Some(entry.id);
        }
    }
    None
}

impl Begun {
    /// No elimination.
    pub fn new(alloc: Global) -> Begun {
        Begun {
            entries: Mutex::new(Entries {
                entries: Vec::new(alloc),
                next: 0,
            }),
            ended: Condvar::new(),
        }
    }

    /// Begins an elimination, and gives the number by which it ends. Where another worker is at the same proof by a budget that is no greater,
    /// this one waits until that has ended, so it waits for no more work than it would do itself. Without memory nobody waits for it.
    pub fn begin<W: Wait>(&self, rt: &W, proof: u64, budget: u64) -> u64 {
        let mut entries = self.entries.lock(rt);
        if let Some(id) = same(&entries, proof, budget) {
            entries = self
                .ended
                .wait_while(rt, entries, |entries| has(entries, id));
        }
        let id = entries.next;
        entries.next = id.wrapping_add(1);
        let _ = entries.entries.push(Entry { id, proof, budget });
        id
    }

    /// Ends the elimination with the number.
    pub fn end<W: Wait>(&self, rt: &W, id: u64) {
        let mut entries = self.entries.lock(rt);
        entries.entries.retain(|entry| entry.id != id);
        drop(entries);
        self.ended.notify_all();
    }
}
