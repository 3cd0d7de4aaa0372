//! The workers of a window.
ghost use Rattle.std.specs.Prelude.{◌≡◌, IfOk, IfErr};
ghost use Rattle.job_workers.specs.Boards.{runner_of, IsPassOf};
ghost use denote.Param.Send.{IsSync};

use crate::boards::{Board, BoardPass};
use crate::gates::Gate;
use crate::progress::Progress;
use crate::runners::Runner;
use core::thread::Stack;
use std::alloc::Global;
use std::snapshot::Snapshot;
use std::sync::Wait;
use std::thread;
use std::thread::{Promise, PromisedHandle, Scope, Threads};

// The bytes of stack of a worker's thread, since a job may work on deeply nested proofs. The system gives memory only to the part that is
// used.
const STACK_SIZE: usize = 1 << 30;

// The bytes of stack where the system refuses a thread with that many.
const SMALL_STACK_SIZE: usize = 64 << 20;

// How often at most, for each task of a window, a worker looks for a task before it leaves. It is seldom woken for nothing, so the bound is
// hardly ever met, and what is left then the others do, or the caller.
const ROUNDS_OF_A_TASK: usize = 4;

// What a worker promises: the passes that it gives back are of the board, and fit the runner's home.
#[derive(Drop)]
struct Worker<R: Runner> {
    board: Snapshot<Board<R>>,
    runner: Snapshot<R>,
}

impl<R: Runner> Promise<(BoardPass<R>, R::Pass)> for Worker<R> {
    ghost kept_by = { λ worker passes. IsPassOf R.sense R.Belongs worker.board.value passes.0 × R.PassFits (R.home worker.runner.value) passes.1 };
}

impl<R: Runner> Worker<R> {
    fn new(board: &Board<R>, runner: &R) -> Worker<R>
        ensures board { result.board.value ≡ board.now }
        ensures runner { result.runner.value ≡ runner.now }
    {
        Worker {
            board: Snapshot::of(board),
            runner: Snapshot::of(runner),
        }
    }
}

// Takes, runs and puts one task. The answer is false where none was ready, or where there was no memory to take it.
fn step<W: Threads + Wait + Sync, R: Runner, G: Gate>(
    rt: &W,
    alloc: Global,
    board: &Board<R>,
    runner: &R,
    gate: &G,
    progress: &Progress,
    mine: &mut BoardPass<R>,
    pass: &mut R::Pass,
) -> bool
    requires mine { IsPassOf R.sense R.Belongs board.now mine.old }
    requires home { R.home runner.now ≡ R.home (runner_of board.now) }
    requires pass { R.PassFits (R.home runner.now) pass.old }
    ensures mine { IsPassOf R.sense R.Belongs board.now mine.new }
    ensures pass { R.PassFits (R.home runner.now) pass.new }
{
    let Ok(Some(ticket)) = board.take(rt, alloc, runner, mine) else {
        return false;
    };
    progress.note_taken(rt, ticket.has_more);
    let task = board.task(&ticket);
    gate.pass(task.n);
    let (reply, held) = runner.run(rt, alloc, pass, &task.job, ticket.given());
    board.put(rt, mine, ticket, reply, held);
    true
}

// One worker. Where it finds no task ready it rests until another worker has seen one that is, and leaves once none is busy.
fn work<W: Threads + Wait + Sync, R: Runner, G: Gate>(
    rt: &W,
    alloc: Global,
    board: &Board<R>,
    runner: &R,
    gate: &G,
    progress: &Progress,
    mut mine: BoardPass<R>,
    mut pass: R::Pass,
) -> (BoardPass<R>, R::Pass)
    requires mine { IsPassOf R.sense R.Belongs board.now mine }
    requires home { R.home runner.now ≡ R.home (runner_of board.now) }
    requires pass { R.PassFits (R.home runner.now) pass }
    ensures mine { IsPassOf R.sense R.Belongs board.now result.0 }
    ensures pass { R.PassFits (R.home runner.now) result.1 }
{
    progress.begin(rt);
    for _ in 0..board.count().saturating_mul(ROUNDS_OF_A_TASK) {
        let has_done = step(
            rt, alloc, board, runner, gate, progress, &mut mine, &mut pass,
        );
        if !has_done && !progress.rest(rt) {
            return (mine, pass);
        }
    }
    progress.end(rt);
    (mine, pass)
}

// Starts a worker in a thread of the scope, which goes on to so many workers at most, itself among them. Where no thread can be started, its
// work is done in this one.
#[cycle(work_in)]
fn start<'s, E, W: Threads + Wait + Sync, R: Runner, G: Gate>(
    scope: &'s Scope<'s, E>,
    rt: &'s W,
    alloc: Global,
    board: &'s Board<R>,
    runner: &'s R,
    gate: &'s G,
    progress: &'s Progress,
    mine: BoardPass<R>,
    pass: R::Pass,
    workers: u64,
) -> Result<PromisedHandle<(BoardPass<R>, R::Pass), Worker<R>>, (BoardPass<R>, R::Pass)>
    requires mine { IsPassOf R.sense R.Belongs board.now mine }
    requires home { R.home runner.now ≡ R.home (runner_of board.now) }
    requires pass { R.PassFits (R.home runner.now) pass }
    ensures board { IfOk result (λ worker. worker.promise.board.value ≡ board.now) }
    ensures runner { IfOk result (λ worker. worker.promise.runner.value ≡ runner.now) }
    ensures mine { IfErr result (λ passes. IsPassOf R.sense R.Belongs board.now passes.0) }
    ensures pass { IfErr result (λ passes. R.PassFits (R.home runner.now) passes.1) }
{
    let job = move || -> (BoardPass<R>, R::Pass)
        requires { IsSync W.row × IsPassOf R.sense R.Belongs board.now mine × (R.home runner.now ≡ R.home (runner_of board.now)) × R.PassFits (R.home runner.now) pass }
        ensures { IsPassOf R.sense R.Belongs board.entry.now result.0 × R.PassFits (R.home runner.entry.now) result.1 }
    {
        work_in(
            scope, rt, alloc, board, runner, gate, progress, mine, pass, workers,
        )
    };
    let large = Stack::new().stack_size(STACK_SIZE);
    let refused = match large.spawn_scoped_with(scope, Worker::new(board, runner), job) {
        Ok(worker) => return Ok(worker),
        Err(refused) => refused,
    };
    let small = Stack::new().stack_size(SMALL_STACK_SIZE);
    match small.spawn_scoped_with(scope, Worker::new(board, runner), refused.value) {
        Ok(worker) => Ok(worker),
        Err(refused) => Err((refused.value)()),
    }
}

// So many workers at most: this thread, with the passes that are handed in, and others in threads of the scope. Starting a thread can cost
// more than many tasks do. So this worker starts at most one other, which starts the next, and none where every task has been taken.
#[cycle(work_in)]
fn work_in<'s, E, W: Threads + Wait + Sync, R: Runner, G: Gate>(
    scope: &'s Scope<'s, E>,
    rt: &'s W,
    alloc: Global,
    board: &'s Board<R>,
    runner: &'s R,
    gate: &'s G,
    progress: &'s Progress,
    mut mine: BoardPass<R>,
    mut pass: R::Pass,
    workers: u64,
) -> (BoardPass<R>, R::Pass)
    requires mine { IsPassOf R.sense R.Belongs board.now mine }
    requires home { R.home runner.now ≡ R.home (runner_of board.now) }
    requires pass { R.PassFits (R.home runner.now) pass }
    ensures mine { IsPassOf R.sense R.Belongs board.now result.0 }
    ensures pass { R.PassFits (R.home runner.now) result.1 }
{
    if workers <= 1 || !progress.has_waiting(rt, board.count() as u64) {
        return work(rt, alloc, board, runner, gate, progress, mine, pass);
    }
    let other = board.split(&mut mine);
    let theirs = runner.split(&mut pass);
    let started = start(
        scope,
        rt,
        alloc,
        board,
        runner,
        gate,
        progress,
        other,
        theirs,
        workers - 1,
    );
    let (mut mine, mut pass) = work(rt, alloc, board, runner, gate, progress, mine, pass);
    let (other, theirs) = match started {
        Ok(worker) => worker.join(rt),
        Err(passes) => passes,
    };
    board.join(&mut mine, other);
    runner.join(&mut pass, theirs);
    (mine, pass)
}

/// So many workers at most, of which one is this thread with the passes that are handed in.
pub fn work_all<W: Threads + Wait + Sync, R: Runner, G: Gate>(
    rt: &W,
    alloc: Global,
    board: &Board<R>,
    runner: &R,
    gate: &G,
    mine: BoardPass<R>,
    pass: R::Pass,
    workers: u64,
) -> (BoardPass<R>, R::Pass)
    requires mine { IsPassOf R.sense R.Belongs board.now mine }
    requires home { R.home runner.now ≡ R.home (runner_of board.now) }
    requires pass { R.PassFits (R.home runner.now) pass }
    ensures mine { IsPassOf R.sense R.Belongs board.now result.0 }
    ensures pass { R.PassFits (R.home runner.now) result.1 }
{
    let progress = &Progress::new();
    thread::scope(
        thread::scope_env(),
        rt,
        move |scope| -> (BoardPass<R>, R::Pass)
            requires { IsSync W.row × IsPassOf R.sense R.Belongs board.now mine × (R.home runner.now ≡ R.home (runner_of board.now)) × R.PassFits (R.home runner.now) pass }
            ensures { IsPassOf R.sense R.Belongs board.entry.now result.0 × R.PassFits (R.home runner.entry.now) result.1 }
        {
            work_in(
                scope, rt, alloc, board, runner, gate, progress, mine, pass, workers,
            )
        },
    )
}
