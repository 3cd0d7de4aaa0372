//! A session between two lines.
ghost use Rattle.std.specs.Prelude.{◌≡◌, ◌+◌, ◌<◌, ◌≤◌, ◌^◌, ◌∷◌, ◌++◌, List, [], ℕ, IfOk, OnOk, IfErr, length, false, vec_capacity};
ghost use Rattle.std.specs.List.{list_all};
ghost use Rattle.std.specs.Option.{option_copied};
ghost use Rattle.session_laws.specs.Jobs.{IsKept, is_blank as is_blank_of, is_job as is_job_of, jobs};
ghost use Rattle.cut_elim.specs.declared.desk.Desk.{Desk as DeskMeaning};
ghost use Rattle.cut_elim.specs.Desks.{IsDeskPassOf};
ghost use Rattle.job_windows.specs.Means.{HasPass};
ghost use Rattle.job_windows.specs.declared.seats.Due.{Due as DueMeaning};
ghost use Rattle.edge_io.specs.Causes.{Rose};
ghost use Rattle.proof_server.specs.Turn.{IsAt, IsWriting, Goes, Writes, seats_in};
ghost use Rattle.proof_server.specs.declared.session.Stop.TheVariants.{WriteFault};

use crate::counts::Counts;
use crate::running::run_behind;
use cut_elim::{Desk, DeskPass};
use edge_io::{Sink, write_whole};
use job_windows::{Due, Store, Window};
use job_workers::Gate;
use std::alloc::{AllocError, Global};
use std::mem;
use std::sync::Wait;
use std::thread::Threads;
use text_tables::TextTables;

/// The most jobs that a window has.
const MOST_JOBS: usize = 64;

/// A window is run with the line with which its lines come to so many bytes.
const MOST_BYTES: u64 = 16_777_216;

/// Where a session over a desk stands: how many jobs it has answered, what they hold, the jobs of its window and the bytes of their lines,
/// the texts that were read and printed, and what is counted of the replies. It has a pass of the desk, and is ended by `end`.
pub struct Session {
    pub workers: u64,
    pub count: u64,
    pub store: Store,
    pub window: Window,
    pub bytes: u64,
    pub texts: TextTables,
    pub counts: Counts,
    pub good: bool,
    pub lacked: bool,
}

/// What becomes of the memory that a session has when it ends.
#[derive(Clone, Copy)]
pub enum Storage {
    /// It is given back, piece by piece.
    Freed,
    /// It is left to the system, by a process that ends next.
    Left,
}

/// Why a session can't go on.
#[derive(Clone, Copy, PartialEq, Eq)]
pub enum Stop {
    WriteFault,
    Memory,
}

fn is_blank(b: u8) -> bool
    ensures { result ≡ is_blank_of b }
{
    b == b' ' || b == b'\t' || b == b'\r'
}

/// Whether the line holds blanks alone, and so is no job.
fn is_empty_line(line: &[u8]) -> bool
    ensures { result ≡ list_all is_blank_of line.now }
{
    line.iter().all(|b| is_blank(*b))
}

/// Whether a line is a job. One that is too long, `None`, is a job.
fn is_job(line: Option<&[u8]>) -> bool
    ensures { (text : List ℕ) → IsKept (option_copied line.entry) text → result ≡ is_job_of text }
{
    match line {
        Some(line) => !is_empty_line(line),
        None => true,
    }
}

/// Hands on all that was written.
fn flush<K: Sink>(sink: &mut K) -> Result<(), Stop>
    ensures bytes { K.written sink.new ≡ K.written sink.old }
    ensures flushed { OnOk result (K.flushed sink.new ≡ K.written sink.new) }
    ensures failed { IfErr result (λ stop. (stop ≡ WriteFault) × Rose (K.faults sink.old) (K.faults sink.new)) }
    ensures faults { K.faults sink.old ≤ K.faults sink.new }
{
    match sink.flush() {
        Ok(()) => Ok(()),
        Err(_) => Err(Stop::WriteFault),
    }
}

impl Session {
    /// No job has been answered, over the desk that the pass is of. The jobs of a window are run by so many workers at most.
    pub fn new(alloc: Global, pass: DeskPass, workers: u64) -> Session
        ensures { (desk : DeskMeaning) → IsDeskPassOf desk pass → IsAt desk result [] [] }
    {
        Session {
            workers,
            count: 0,
            store: Store::new(alloc, pass),
            window: Window::new(alloc),
            bytes: 0,
            texts: TextTables::new(alloc),
            counts: Counts::new(),
            good: true,
            lacked: false,
        }
    }

    /// Ends the session with its store, and gives its pass back.
    pub fn end(self, storage: Storage) -> DeskPass
        ensures { result ≡ self.store.pass }
    {
        let Session {
            workers: _workers,
            count: _count,
            store,
            window: _window,
            bytes: _bytes,
            texts,
            counts: _counts,
            good: _good,
            lacked: _lacked,
        } = self;
        match storage {
            Storage::Freed => {
                drop(texts);
                store.close()
            }
            Storage::Left => {
                mem::forget(texts);
                store.leave()
            }
        }
    }

    /// Takes a line in, `None` for one that is too long: a job is gathered into the window, and an empty line closes it, as do the last job
    /// that it may have and the last bytes. So a window never has more than 64 jobs.
    pub fn take<R: Wait + Threads + Sync, K: Sink, G: Gate>(
        &mut self,
        rt: &R,
        alloc: Global,
        desk: &Desk,
        sink: &mut K,
        gate: &G,
        line: Option<&[u8]>,
    ) -> Result<(), Stop>
        requires room { self.old.count + seats_in self.old + 1 < 2 ^ 64 }
        requires kept { (text : List ℕ) × IsKept (option_copied line) text }
        requires at { (asked : List (List ℕ)) × (written : List ℕ) × IsAt desk.now self.old asked written }
        ensures takes { (asked : List (List ℕ)) (written text : List ℕ) → IsAt desk.now self.old asked written
            → IsKept (option_copied line.entry) text
            → Goes desk.now result self.new (asked ++ jobs (text ∷ [])) written (K.faults sink.old) (K.faults sink.new)
            (K.written sink.old) (K.written sink.new) }
        ensures few { OnOk result (self.new.count + seats_in self.new ≤ self.old.count + seats_in self.old + 1) }
        ensures window { OnOk result (seats_in self.new < 64) }
        ensures answered { (text : List ℕ) → IsKept (option_copied line.entry) text → is_job_of text ≡ false
            → OnOk result (seats_in self.new ≡ 0) }
        ensures flushed { (text : List ℕ) → IsKept (option_copied line.entry) text → is_job_of text ≡ false
            → OnOk result (K.flushed sink.new ≡ K.written sink.new) }
        ensures faults { K.faults sink.old ≤ K.faults sink.new }
        ensures pass { HasPass desk.now self.new.store }
    {
        if !is_job(line) {
            return self.run(rt, alloc, desk, sink, gate);
        }
        match self.gather(alloc, line) {
            Ok(true) => self.run(rt, alloc, desk, sink, gate),
            Ok(false) => Ok(()),
            Err(_) => Err(Stop::Memory),
        }
    }

    // Gathers a job into the window, and says whether the window is full. A line that is too long fills it.
    fn gather(&mut self, alloc: Global, line: Option<&[u8]>) -> Result<bool, AllocError>
        requires kept { (text : List ℕ) × IsKept (option_copied line) text }
        ensures at { (desk : DeskMeaning) (asked : List (List ℕ)) (written text : List ℕ) → IsAt desk self.old asked written
            → IsKept (option_copied line.entry) text
            → OnOk result (IsAt desk self.new (asked ++ text ∷ []) written) }
        ensures few { OnOk result (self.new.count + seats_in self.new ≤ self.old.count + seats_in self.old + 1) }
        ensures window { IfOk result (λ full. full ≡ false → seats_in self.new < 64) }
        ensures pass { self.new.store.pass ≡ self.old.store.pass }
    {
        let texts = &mut self.texts.formulas;
        self.store.gather(alloc, texts, &mut self.window, line)?;
        let bytes = match line {
            Some(line) => line.len() as u64,
            None => MOST_BYTES,
        };
        self.bytes = self.bytes.saturating_add(bytes);
        Ok(self.window.len() >= MOST_JOBS || self.bytes >= MOST_BYTES)
    }

    /// Closes the window: its jobs are run, the reply of each is written, in their order, and all is flushed.
    pub fn run<R: Wait + Threads + Sync, K: Sink, G: Gate>(
        &mut self,
        rt: &R,
        alloc: Global,
        desk: &Desk,
        sink: &mut K,
        gate: &G,
    ) -> Result<(), Stop>
        requires room { self.old.count + seats_in self.old < 2 ^ 64 }
        requires at { (asked : List (List ℕ)) × (written : List ℕ) × IsAt desk.now self.old asked written }
        ensures goes { (asked : List (List ℕ)) (written : List ℕ) → IsAt desk.now self.old asked written
            → Goes desk.now result self.new asked written (K.faults sink.old) (K.faults sink.new) (K.written sink.old) (K.written sink.new) }
        ensures empty { OnOk result (seats_in self.new ≡ 0) }
        ensures few { OnOk result (self.new.count ≡ self.old.count + seats_in self.old) }
        ensures flushed { OnOk result (K.flushed sink.new ≡ K.written sink.new) }
        ensures faults { K.faults sink.old ≤ K.faults sink.new }
        ensures pass { HasPass desk.now self.new.store }
    {
        let dues = match self.run_jobs(rt, alloc, desk, gate) {
            Ok(dues) => dues,
            Err(_) => return Err(Stop::Memory),
        };
        match self.write_all(alloc, sink, dues) {
            Ok(()) => {}
            Err(stop) => return Err(stop),
        }
        flush(sink)
    }

    // Runs the jobs of the window, which is empty then, and answers what is due for each.
    fn run_jobs<R: Wait + Threads + Sync, G: Gate>(
        &mut self,
        rt: &R,
        alloc: Global,
        desk: &Desk,
        gate: &G,
    ) -> Result<Vec<Due>, AllocError>
        requires { (asked : List (List ℕ)) × (written : List ℕ) × IsAt desk.now self.old asked written }
        ensures writing { (asked : List (List ℕ)) (written : List ℕ) → IsAt desk.now self.old asked written
            → IfOk result (λ dues. IsWriting desk.now self.new asked written dues.items) }
        ensures length { IfOk result (λ dues. length dues.items ≡ seats_in self.old) }
        ensures empty { (self.new.window.seats.items ≡ []) × (self.new.window.tasks.items ≡ []) }
        ensures count { self.new.count ≡ self.old.count }
        ensures pass { HasPass desk.now self.new.store }
    {
        let window = mem::replace(&mut self.window, Window::new(alloc));
        let worthwhile = window.worthwhile_workers(mem::replace(&mut self.bytes, 0));
        let least = if gate.may_hold() { 2 } else { 1 };
        let workers = self.workers.min(worthwhile.max(least));
        run_behind(&mut self.store, rt, alloc, desk, window, workers, gate)
    }

    // Writes the reply to each job, in their order.
    fn write_all<K: Sink>(
        &mut self,
        alloc: Global,
        sink: &mut K,
        dues: Vec<Due>,
    ) -> Result<(), Stop>
        requires room { self.old.count + length dues.items < 2 ^ 64 }
        requires writing { (desk : DeskMeaning) × (asked : List (List ℕ)) × (written : List ℕ) × IsWriting desk self.old asked written dues.items }
        ensures writes { (desk : DeskMeaning) (asked : List (List ℕ)) (written : List ℕ) → IsWriting desk self.old asked written dues.items
            → Writes desk result self.new asked written [] (K.faults sink.old) (K.faults sink.new) (K.written sink.old) (K.written sink.new) }
        ensures few { OnOk result (self.new.count ≡ self.old.count + length dues.items) }
        ensures window { self.new.window ≡ self.old.window }
        ensures faults { K.faults sink.old ≤ K.faults sink.new }
        ensures pass { self.new.store.pass ≡ self.old.store.pass }
    {
        for due in dues {
            match self.write(alloc, sink, due) {
                Ok(()) => {}
                Err(stop) => return Err(stop),
            }
        }
        Ok(())
    }

    // Writes the reply to a job, and keeps what it holds.
    fn write<K: Sink>(&mut self, alloc: Global, sink: &mut K, due: Due) -> Result<(), Stop>
        requires room { self.old.count + 1 < 2 ^ 64 }
        requires spare { length self.old.store.held.items < vec_capacity self.old.store.held }
        ensures writes { (desk : DeskMeaning) (asked : List (List ℕ)) (written : List ℕ) (dues : List DueMeaning)
            → IsWriting desk self.old asked written (due ∷ dues)
            → Writes desk result self.new asked written dues (K.faults sink.old) (K.faults sink.new) (K.written sink.old) (K.written sink.new) }
        ensures few { OnOk result (self.new.count ≡ self.old.count + 1) }
        ensures spare { OnOk result ((length self.new.store.held.items ≡ length self.old.store.held.items + 1)
            × (vec_capacity self.new.store.held ≡ vec_capacity self.old.store.held)) }
        ensures window { self.new.window ≡ self.old.window }
        ensures faults { K.faults sink.old ≤ K.faults sink.new }
        ensures pass { self.new.store.pass ≡ self.old.store.pass }
    {
        let reply = match due.reply(alloc, &mut self.texts.canonical, self.count) {
            Ok(reply) => reply,
            Err(_) => return Err(Stop::Memory),
        };
        self.counts.add(&reply);
        match write_whole(sink, &reply.bytes) {
            Ok(()) => {}
            Err(_) => return Err(Stop::WriteFault),
        }
        self.count += 1;
        self.good &= reply.is_ok;
        self.lacked |= reply.lacked;
        self.store.keep(reply.held);
        Ok(())
    }
}
