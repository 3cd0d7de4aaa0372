//! A window of tasks, run whole.
ghost use Rattle.std.specs.Prelude.{◌≡◌, ◌<◌, ◌≤◌, ℕ, true, List, [], IfOk, OnOk, IsSome, Some, All, map, is_some, slice_get, slice_index_or, slice_set, None, length, vec_capacity};
ghost use Rattle.std.specs.List.{list_all};
ghost use Rattle.job_workers.specs.Needs.{is_met, Fits, AreWindow, IsAnswer, AreAnswers, HoldFitting};
ghost use Rattle.job_workers.specs.Records.{slot_at};

use crate::boards::Board;
use crate::gates::Gate;
use crate::given::gather;
use crate::runners::Runner;
use crate::tasks::Task;
use crate::workers::work_all;
use std::alloc::{AllocError, Global};
use std::mem;
use std::sync::Wait;
use std::thread::Threads;

// Runs a task whose needs are met by what stands in the slots.
fn answer<W: Threads + Wait + Sync, R: Runner, G: Gate>(
    rt: &W,
    alloc: Global,
    runner: &R,
    gate: &G,
    pass: &mut R::Pass,
    task: &Task<R::Job, R::Held>,
    slots: &[Option<(R::Reply, R::Held)>],
) -> Result<(R::Reply, R::Held), AllocError>
    requires pass { R.PassFits (R.home runner.now) pass.old }
    requires met { list_all (is_met (λ place. is_some (slot_at slots.now place))) task.now.needs.items ≡ true }
    requires fits { (place : ℕ) × Fits R.arity (R.JobFits (R.home runner.now)) (R.HeldFits (R.home runner.now)) place task.now }
    requires held { HoldFitting (R.HeldFits (R.home runner.now)) (slot_at slots.now) }
    ensures pass { R.PassFits (R.home runner.now) pass.new }
    ensures answer { IfOk result (λ made. IsAnswer R.sense (slot_at slots.now) R.Belongs task.now made.0 made.1) }
    ensures held { IfOk result (λ made. R.HeldFits (R.home runner.now) made.1) }
{
    let given = gather(alloc, runner, slots, &task.needs)?;
    gate.pass(task.n);
    Ok(runner.run(rt, alloc, pass, &task.job, &given))
}

// Runs each task that isn't done, in order.
fn run_rest<W: Threads + Wait + Sync, R: Runner, G: Gate>(
    rt: &W,
    alloc: Global,
    runner: &R,
    gate: &G,
    pass: &mut R::Pass,
    tasks: &[Task<R::Job, R::Held>],
    slots: &mut [Option<(R::Reply, R::Held)>],
) -> Result<(), AllocError>
    requires window { AreWindow R.arity (R.JobFits (R.home runner.now)) (R.HeldFits (R.home runner.now)) tasks.now }
    requires length { length slots.old ≡ length tasks.now }
    requires pass { R.PassFits (R.home runner.now) pass.old }
    requires answers { AreAnswers R.sense R.Belongs tasks.now (slot_at slots.old) }
    requires held { HoldFitting (R.HeldFits (R.home runner.now)) (slot_at slots.old) }
    ensures pass { R.PassFits (R.home runner.now) pass.new }
    ensures done { OnOk result (All IsSome slots.new) }
    ensures answers { OnOk result (AreAnswers R.sense R.Belongs tasks.now (slot_at slots.new)) }
    ensures held { OnOk result (HoldFitting (R.HeldFits (R.home runner.now)) (slot_at slots.new)) }
{
    for (place, task) in tasks.iter().enumerate() {
        if !is_full(slots, place) {
            let made = answer(rt, alloc, runner, gate, pass, task, slots)?;
            fill(slots, place, made);
        }
    }
    Ok(())
}

// Whether there is something in the slot.
fn is_full<T>(slots: &[Option<T>], place: usize) -> bool
    requires { place < length slots.now }
    ensures { result ≡ is_some (slice_index_or slots.now place None) }
{
    slots[place].is_some()
}

// Puts a value into a slot.
fn fill<T: Drop>(slots: &mut [Option<T>], place: usize, value: T)
    requires { place < length slots.old }
    ensures { slots.new ≡ slice_set slots.old place (Some value) }
{
    slots[place] = Some(value);
}

// What stands in slots that are all full, in the room that was made for it.
fn unwrap_all<T: Drop>(slots: Vec<Option<T>>, mut answers: Vec<T>) -> Vec<T>
    requires done { All IsSome slots.items }
    requires empty { answers.items ≡ [] }
    requires room { length slots.items ≤ vec_capacity answers }
    ensures { map Some result.items ≡ slots.items }
{
    for slot in slots {
        answers.push_reserved(slot.unwrap());
    }
    answers
}

/// Runs the tasks of a window by so many workers at most, and answers each task's reply and the value that it holds, in the order of the
/// tasks. A worker takes the first task that may begin. Where there is none, or no memory to take it, it rests until another worker has
/// seen one that is ready, and leaves once no other one is at work. What the workers have left the caller runs in the end, in
/// order. Whoever runs a job passes the gate first. One worker is the caller with its own pass, and each other one has a pass that is split
/// from its starter's, and a thread with a large stack. Before a worker takes its first task it starts the next worker, where a task waits
/// that nobody has taken: so cheap tasks are done before many threads have begun, and costly ones soon have all workers. Where no thread can
/// be started, its work is done by the thread that tried.
pub fn run_window<W: Threads + Wait + Sync, R: Runner, G: Gate>(
    rt: &W,
    alloc: Global,
    runner: &R,
    pass: &mut R::Pass,
    tasks: Vec<Task<R::Job, R::Held>>,
    workers: u64,
    gate: &G,
) -> Result<Vec<(R::Reply, R::Held)>, AllocError>
    requires window { AreWindow R.arity (R.JobFits (R.home runner.now)) (R.HeldFits (R.home runner.now)) tasks.items }
    requires pass { R.PassFits (R.home runner.now) pass.old }
    ensures pass { R.PassFits (R.home runner.now) pass.new }
    ensures length { IfOk result (λ answers. length answers.items ≡ length tasks.items) }
    ensures answers { IfOk result (λ answers. AreAnswers R.sense R.Belongs tasks.items (slice_get answers.items)) }
    ensures fits { IfOk result (λ answers. All (λ answer. R.HeldFits (R.home runner.now) answer.1) answers.items) }
{
    let answers = Vec::with_capacity(alloc, tasks.len())?;
    let workers = workers.min(tasks.len() as u64);
    let (board, mine) = Board::<R>::new(alloc, runner, tasks)?;
    let spare = runner.split(pass);
    let theirs = mem::replace(pass, spare);
    let (mine, theirs) = work_all(rt, alloc, &board, runner, gate, mine, theirs, workers);
    let spare = mem::replace(pass, theirs);
    runner.join(pass, spare);
    let (tasks, mut slots) = board.close(rt, mine);
    run_rest(rt, alloc, runner, gate, pass, &tasks, &mut slots)?;
    Ok(unwrap_all(slots, answers))
}
