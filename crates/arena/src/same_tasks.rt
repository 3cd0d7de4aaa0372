//! Tasks as keys of a table: tasks are compared by their numbers, and hashed by a few multiplications.
ghost use Rattle.std.specs.Prelude.{◌≡◌, ◌↔◌, IsTrue};
ghost use Rattle.std.specs.Hash as fed;
ghost use Rattle.std.specs.Cmp.{partial_equiv_from_equiv};
ghost use Rattle.number_hash.specs.Codes.{same_by_equiv, fingerprints_agree};
ghost use Rattle.arena.specs.TaskKeys.{coded_task, same_task, numbers_fingerprint, task_fingerprint, paired};

use crate::task::{Change, Task};
use fol::mix;
use std::hash::{Hash, Hasher};

fn is_same_change(one: Change, other: Change) -> bool
    ensures { IsTrue result ↔ (one ≡ other) }
{
    match (one, other) {
        (Change::Instance(a, b), Change::Instance(c, d))
        | (Change::Bind(a, b), Change::Bind(c, d)) => a == c && b == d,
        (Change::Image(a), Change::Image(b)) => a == b,
        _ => false,
    }
}

fn is_same(one: Task, other: Task) -> bool
    ensures { IsTrue result ↔ (one ≡ other) }
{
    match (one, other) {
        (Task::Change(change, of), Task::Change(other, number)) => {
            of == number && is_same_change(change, other)
        }
        (Task::Image(a, b), Task::Image(c, d)) | (Task::TreeImage(a, b), Task::TreeImage(c, d)) => {
            a == c && b == d
        }
        _ => false,
    }
}

// Two numbers as one.
#[tactic(auto, unfolding(crate::specs::TaskKeys::paired))]
fn pair(high: u32, low: u32) -> u64
    ensures { result ≡ paired high low }
{
    u64::from(high) * 0x1_0000_0000 + u64::from(low)
}

// The fingerprint of a kind and three numbers.
#[tactic(auto, unfolding(crate::specs::TaskKeys::numbers_fingerprint))]
fn of_numbers(kind: u32, first: u32, second: u32, third: u32) -> u64
    ensures { result ≡ numbers_fingerprint kind first second third }
{
    mix(mix(0, pair(kind, second)), pair(first, third))
}

impl Task {
    // A number in which unequal tasks mostly differ.
    #[tactic(auto, unfolding(crate::specs::TaskKeys::task_fingerprint))]
    fn fingerprint(self) -> u64
        ensures { result ≡ task_fingerprint self }
    {
        match self {
            Task::Change(Change::Instance(term, depth), of) => of_numbers(0, term, depth, of),
            Task::Change(Change::Image(map), of) => of_numbers(1, map, 0, of),
            Task::Change(Change::Bind(variable, depth), of) => of_numbers(2, variable, depth, of),
            Task::Image(map, side) => of_numbers(3, map, 0, side),
            Task::TreeImage(map, of) => of_numbers(4, map, 0, of),
        }
    }
}

impl PartialEq for Task {
    ghost eq = { same_task };

    ghost laws = { partial_equiv_from_equiv (same_by_equiv coded_task) };

    fn eq(&self, other: &Task) -> bool {
        is_same(*self, *other)
    }
}

impl Eq for Task {
    ghost laws = { same_by_equiv coded_task };
}

impl Hash for Task {
    ghost hash_input = { λ q. fed.u64 (task_fingerprint q) };

    ghost respects_eq = { fingerprints_agree coded_task task_fingerprint };

    fn hash<H: Hasher>(&self, state: &mut H) {
        state.write_u64(self.fingerprint());
    }
}
