//! Running the window of a session: the operations of jobs, by several workers.
ghost use Rattle.std.specs.Prelude.{◌≡◌, ℕ, List, IfOk, length};
ghost use Rattle.session_laws.specs.Answers.{Past};
ghost use Rattle.job_windows.specs.Means.{HasPass, IsGathered, IsPending};

use cut_elim::{Desk, DeskPass};
use held_values::Held;
use job_lang::Op;
use job_windows::{Due, Store, Window, dues};
use job_workers::{Gate, Runner, run_window};
use operations::{answer, has_refutation, with_proofs};
use reply_lines::Outcome;
use std::alloc::{AllocError, Global};
use std::sync::Wait;
use std::thread::Threads;

/// The operations of jobs over the proofs of a desk, run by any number of workers, each with a pass of the desk.
#[derive(Drop)]
pub(crate) struct Operations<'a> {
    pub desk: &'a Desk,
    pub alloc: Global,
}

impl<'a> Runner for Operations<'a> {
    ghost use Rattle.std.specs.Prelude.{Option, length};
    ghost use Rattle.cut_elim.specs.declared.desk.Desk.{Desk as DeskMeaning};
    ghost use Rattle.cut_elim.specs.Desks.{IsDeskPassOf};
    ghost use Rattle.job_lang.specs.FormedOps.{IsFormedOp};
    ghost use Rattle.operation_laws.specs.Values.{Value};
    ghost use Rattle.operation_laws.specs.Given.{names_in};
    ghost use Rattle.held_values.specs.Means.{sense as sense_of};
    ghost use Rattle.job_windows.specs.Running.{Belongs as BelongsTo, FitsDesk};

    type Job = Op;

    type Held = Held;

    type Reply = Outcome;

    type Pass = DeskPass;

    ghost Home = { DeskMeaning };

    ghost home = { λ o. o.desk.now };

    ghost Sense = { Option Value };

    ghost sense = { sense_of };

    ghost arity = { λ op. length (names_in op) };

    ghost Belongs = { BelongsTo };

    ghost PassFits = { IsDeskPassOf };

    ghost JobFits = { λ desk op. IsFormedOp op };

    ghost HeldFits = { FitsDesk };

    fn run<W: Threads + Wait + Sync>(
        &self,
        rt: &W,
        alloc: Global,
        pass: &mut DeskPass,
        job: &Op,
        given: &[Held],
    ) -> (Outcome, Held) {
        if has_refutation(given) {
            if let Ok(made) = with_proofs(rt, alloc, self.desk, pass, given) {
                return answer(rt, alloc, self.desk, pass, job, &made);
            }
        }
        answer(rt, alloc, self.desk, pass, job, given)
    }

    fn keep(&self, alloc: Global, held: &Held) -> Result<Held, AllocError> {
        held.copy(alloc)
    }

    fn split(&self, pass: &mut DeskPass) -> DeskPass {
        self.desk.split(self.alloc, pass)
    }

    fn join(&self, pass: &mut DeskPass, other: DeskPass) {
        self.desk.join(pass, other);
    }
}

/// Runs the jobs of a window behind a store of the desk by so many workers at most, and answers what is due for each, in their order. Room for the answers
/// is made before the first job is run. Where there is no memory for what a job left to the caller is given, no job of the window is answered.
pub(crate) fn run_behind<R: Wait + Threads + Sync, G: Gate>(
    store: &mut Store,
    rt: &R,
    alloc: Global,
    desk: &Desk,
    window: Window,
    workers: u64,
    gate: &G,
) -> Result<Vec<Due>, AllocError>
    requires { (earlier : List Past) × (lines : List (List ℕ)) × IsGathered desk.now store.old window earlier lines }
    ensures due { (earlier : List Past) (lines : List (List ℕ)) → IsGathered desk.now store.old window earlier lines
        → IfOk result (λ dues. IsPending desk.now store.new earlier lines dues.items) }
    ensures length { IfOk result (λ dues. length dues.items ≡ length window.seats.items) }
    ensures pass { HasPass desk.now store.new }
{
    let Window { seats, tasks } = window;
    let room = Vec::with_capacity(alloc, seats.len())?;
    store.held.reserve(seats.len())?;
    let operations = Operations { desk, alloc };
    let answers = run_window(
        rt,
        alloc,
        &operations,
        &mut store.pass,
        tasks,
        workers,
        gate,
    )?;
    Ok(dues(seats, answers, room))
}
