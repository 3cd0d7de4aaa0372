//! The sessions of a bundle, at once and over one desk.
ghost use Rattle.std.specs.Prelude.{◌≡◌, ◌≤◌, [], map, length, All, IfOk, vec_capacity};
ghost use Rattle.std.specs.List.{AllZip};
ghost use Rattle.cut_elim.specs.Desks.{IsDeskPassOf};
ghost use Rattle.proof_server.specs.Parts.{IsServed, IsShort, job_of, has_no_needs};

use crate::command::serve_on;
use crate::session::Storage;
use cut_elim::{Desk, DeskPass};
use edge_io::{MemSink, NeverSource};
use job_workers::{Gate, NoGate, Runner, Task, run_window};
use sessions::Part;
use std::alloc::{AllocError, Global};
use std::sync::Wait;
use std::thread::Threads;

/// What the session of a part came to: the status of its end and its replies. The status is 0 or 1 where all jobs are answered, as that of
/// `serve`, and 5 where memory ran out, also memory for the replies.
#[derive(Debug, Drop)]
pub struct Done {
    pub session: u32,
    pub status: u8,
    pub bytes: Vec<u8>,
}

/// The sessions of parts over a desk, run by any number of workers, each with a pass of the desk.
#[derive(Drop)]
pub(crate) struct Sessions<'a> {
    pub desk: &'a Desk,
    pub alloc: Global,
}

impl<'a> Runner for Sessions<'a> {
    ghost use Rattle.cut_elim.specs.declared.desk.Desk.{Desk as DeskMeaning};
    ghost use Rattle.cut_elim.specs.Desks.{IsDeskPassOf as IsPass};
    ghost use Rattle.proof_server.specs.Parts.{IsServed as IsServedBy, IsShort as IsShortPart};

    type Job = Part;

    type Held = ();

    type Reply = Done;

    type Pass = DeskPass;

    ghost Home = { DeskMeaning };

    ghost home = { λ s. s.desk.now };

    ghost Sense = { Unit {0} };

    ghost sense = { λ held. held };

    ghost arity = { λ part. 0 };

    ghost Belongs = { λ part given done held. IsServedBy part done };

    ghost PassFits = { IsPass };

    ghost JobFits = { λ desk part. IsShortPart part };

    ghost HeldFits = { λ desk held. Unit {0} };

    fn run<W: Threads + Wait + Sync>(
        &self,
        rt: &W,
        alloc: Global,
        pass: &mut DeskPass,
        part: &Part,
        _given: &[()],
    ) -> (Done, ()) {
        (serve_part(rt, alloc, self.desk, pass, part), ())
    }

    fn keep(&self, _alloc: Global, _held: &()) -> Result<(), AllocError> {
        Ok(())
    }

    fn split(&self, pass: &mut DeskPass) -> DeskPass {
        self.desk.split(self.alloc, pass)
    }

    fn join(&self, pass: &mut DeskPass, other: DeskPass) {
        self.desk.join(pass, other);
    }
}

// The status of a session whose sink is in memory, which fails for want of memory alone.
fn status_in_memory(status: u8) -> u8
    ensures fault { status ≡ 4 → result ≡ 5 }
    ensures same { ¬ (status ≡ 4) → result ≡ status }
{
    if status == 4 { 5 } else { status }
}

// Serves a part by a session of its own over the desk, with one worker.
fn serve_part<R: Wait + Threads + Sync>(
    rt: &R,
    alloc: Global,
    desk: &Desk,
    pass: &mut DeskPass,
    part: &Part,
) -> Done
    requires pass { IsDeskPassOf desk.now pass.old }
    requires short { IsShort part.now }
    ensures served { IsServed part.now result }
    ensures pass { IsDeskPassOf desk.now pass.new }
{
    let session = part.session;
    let bytes = match part.bytes.clone() {
        Ok(bytes) => bytes,
        Err(_) => {
            return Done {
                session,
                status: 5,
                bytes: Vec::new(alloc),
            };
        }
    };
    let mut source = NeverSource::new(bytes);
    let mut sink = MemSink::new(alloc, u64::MAX, Vec::new(alloc));
    let status = serve_on(rt, alloc, desk, pass, &mut source, &mut sink, &NoGate, 1);
    Done {
        session,
        status: status_in_memory(status),
        bytes: sink.into_bytes(),
    }
}

// The parts as the tasks of a window, each with its place from 1, and given nothing.
fn tasks_of(alloc: Global, parts: Vec<Part>) -> Result<Vec<Task<Part, ()>>, AllocError>
    ensures jobs { IfOk result (λ tasks. map job_of tasks.items ≡ parts.items) }
    ensures needs { IfOk result (λ tasks. All has_no_needs tasks.items) }
{
    let mut tasks = Vec::with_capacity(alloc, parts.len())?;
    for part in parts {
        let n = tasks.len() as u64 + 1;
        tasks.push(Task {
            n,
            job: part,
            needs: Vec::new(alloc),
            after: None,
        })?;
    }
    Ok(tasks)
}

// What came of the parts alone, in the room that was made for it.
fn dones_of(answers: Vec<(Done, ())>, mut room: Vec<Done>) -> Vec<Done>
    requires empty { room.items ≡ [] }
    requires room { length answers.items ≤ vec_capacity room }
    ensures { result.items ≡ map (λ answer. answer.0) answers.items }
{
    for answer in answers {
        room.push_reserved(answer.0);
    }
    room
}

/// Runs the sessions of a bundle as `serve_parts` does. In the end the desk's memory is given back or left.
pub(crate) fn run_parts<R: Wait + Threads + Sync, G: Gate>(
    rt: &R,
    alloc: Global,
    parts: Vec<Part>,
    workers: u64,
    gate: &G,
    storage: Storage,
) -> Result<Vec<Done>, AllocError>
    requires { All IsShort parts.items }
    ensures { IfOk result (λ dones. AllZip IsServed parts.items dones.items) }
{
    let room = Vec::with_capacity(alloc, parts.len())?;
    let tasks = tasks_of(alloc, parts)?;
    let (desk, mut pass) = Desk::new(rt, alloc)?;
    let sessions = Sessions { desk: &desk, alloc };
    let answers = run_window(rt, alloc, &sessions, &mut pass, tasks, workers, gate);
    match storage {
        Storage::Freed => desk.close(rt, pass),
        Storage::Left => desk.leave(rt, pass),
    }
    Ok(dones_of(answers?, room))
}

/// Runs the sessions of a bundle over one desk, by so many workers at most: each part is a session of its own, with one worker, and names are
/// its own. What the sessions prove is kept once for all of them. The answer has what each came to, in the order of the parts. The gate is
/// passed with a part's place, from 1, by the worker that took the part, before its session begins.
pub fn serve_parts<R: Wait + Threads + Sync, G: Gate>(
    rt: &R,
    alloc: Global,
    parts: Vec<Part>,
    workers: u64,
    gate: &G,
) -> Result<Vec<Done>, AllocError>
    requires { All IsShort parts.items }
    ensures { IfOk result (λ dones. AllZip IsServed parts.items dones.items) }
{
    run_parts(rt, alloc, parts, workers, gate, Storage::Freed)
}
