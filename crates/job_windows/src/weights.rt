//! How much work the jobs of a window may be. No thread is started for less than it costs, and what is found done by another job isn't done
//! beside it. Nothing rests on it but how many workers there are, and in which order they take their tasks.

use held_values::Held;
use job_lang::Op;
use job_workers::{Need, Task};

/// The work that is worth a worker of its own, since it takes several times as long as starting a thread. A unit is about what it costs to go
/// through one inference.
pub const WORK_OF_A_WORKER: u64 = 1_024;

// How many inferences a value has, as a tree. What is no proof may be any amount of work.
fn size_of(held: &Held) -> u64 {
    match held {
        Held::Proof(proof) => proof.counts().nodes,
        Held::Refutation(refutation) => refutation.steps.as_slice().len() as u64,
        Held::Pair(first, second) => first.counts().nodes.saturating_add(second.counts().nodes),
        Held::Problem(_) | Held::Expansion(_) => WORK_OF_A_WORKER,
        Held::Definition(_) | Held::Nothing | Held::Refused | Held::Unheld | Held::Unknown => 0,
    }
}

// About how many inferences the value of a task will have, by its line and the values that it is given.
fn size_to_come(task: &Task<Op, Held>) -> u64 {
    if let Op::Lk { steps, .. } = &task.job {
        return steps.as_slice().len() as u64;
    }
    let mut size: u64 = 0;
    for need in &task.needs {
        size = size.saturating_add(match need {
            Need::Value(held) => size_of(held),
            Need::Task(_) => WORK_OF_A_WORKER,
        });
    }
    size
}

// About how many inferences all has that is given to a task.
fn size_given(tasks: &[Task<Op, Held>], needs: &[Need<Held>]) -> u64 {
    let mut size: u64 = 0;
    for need in needs {
        size = size.saturating_add(match need {
            Need::Value(held) => size_of(held),
            Need::Task(place) => match tasks.get(*place as usize) {
                Some(task) => size_to_come(task),
                None => 0,
            },
        });
    }
    size
}

/// How much work a task may be beside reading its line, at most that of a worker.
pub fn work_of(tasks: &[Task<Op, Held>], task: &Task<Op, Held>) -> u64 {
    if task.after.is_some() {
        return 0;
    }
    let size = size_given(tasks, &task.needs);
    let work = match &task.job {
        Op::Lk { .. } | Op::Problem { .. } | Op::Proves { .. } | Op::Define { .. } => 0,
        Op::Show { .. }
        | Op::Measure { .. }
        | Op::Subst { .. }
        | Op::Unfold { .. }
        | Op::Expand { .. }
        | Op::Interpolate { .. }
        | Op::Herbrand { .. } => size,
        Op::Cutelim { .. } | Op::Eliminate { .. } => size.saturating_mul(size),
        Op::Sat { .. }
        | Op::Prove { .. }
        | Op::Resolution { .. }
        | Op::Tautology { .. }
        | Op::Expansion { .. }
        | Op::Fromexp { .. }
        | Op::Cutintro { .. } => WORK_OF_A_WORKER,
    };
    work.min(WORK_OF_A_WORKER)
}

fn eliminates(op: &Op) -> bool {
    matches!(op, Op::Cutelim { .. } | Op::Eliminate { .. })
}

// Whether two needs are known to stand for one proof.
fn is_same_proof(one: &Need<Held>, other: &Need<Held>) -> bool {
    match (one, other) {
        (Need::Task(first), Need::Task(second)) => *first == *second,
        (Need::Value(Held::Proof(first)), Need::Value(Held::Proof(second))) => {
            first.number() == second.number()
        }
        _ => false,
    }
}

/// The last of the tasks that eliminates the cuts of the same proof, where the operation does so too: it finds what that one did.
pub fn same_elimination(tasks: &[Task<Op, Held>], op: &Op, needs: &[Need<Held>]) -> Option<u64> {
    let Some(need) = needs.first() else {
        return None;
    };
    if !eliminates(op) {
        return None;
    }
    let mut last = None;
    for (place, task) in tasks.iter().enumerate() {
        if eliminates(&task.job) && task.needs.iter().any(|other| is_same_proof(need, other)) {
            last = Some(place as u64);
        }
    }
    last
}
