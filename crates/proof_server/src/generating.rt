//! A run over generated jobs: their replies are counted, and nothing else is written.
ghost use Rattle.std.specs.Prelude.{◌≡◌, ◌∷◌, ◌++◌, [], List, ℕ, IfOk};
ghost use Rattle.job_gen.specs.Generated.{generated_line};
ghost use Rattle.cut_elim.specs.Desks.{IsDeskPassOf};
ghost use Rattle.proof_server.specs.Turn.{IsAt};
ghost use Rattle.proof_server.specs.Counting.{counts_line as line_of_counts};
ghost use Rattle.proof_server.specs.Generating.{AreCounts, EndsCounting};

use crate::counts::{Counts, counts_line};
use crate::ending::Ended;
use crate::session::{Session, Storage};
use cut_elim::Desk;
use edge_io::{NeverSink, Sink, write_whole};
use job_gen::generate_line;
use job_gen::laws::lines;
use job_workers::Gate;
use session_laws::laws::held_proofs;
use std::alloc::{AllocError, Global};
use std::sync::Wait;
use std::thread::Threads;

// The line of the generated job that comes after `count` others, without its newline.
fn generated_text(alloc: Global, count: u64) -> Result<Vec<u8>, AllocError>
    ensures { (text : List ℕ) → generated_line count ≡ text ++ 10 ∷ [] → IfOk result (λ line. line.items ≡ text) }
{
    let mut line = generate_line(alloc, count)?;
    line.pop();
    Ok(line)
}

// The counts of the replies to n generated jobs in a new session over the desk, unless memory runs out or a job lacks it. The jobs of one window and one
// reply at a time are kept.
fn count_replies<R: Wait + Threads + Sync, G: Gate>(
    session: &mut Session,
    rt: &R,
    alloc: Global,
    desk: &Desk,
    gate: &G,
    n: u64,
) -> Result<Counts, AllocError>
    requires { IsAt desk.now session.old [] [] }
    ensures counts { IfOk result (AreCounts n) }
    ensures pass { IsDeskPassOf desk.now session.new.store.pass }
{
    held_proofs();
    lines();
    let mut sink = NeverSink::new();
    for i in 0..n {
        let line = generated_text(alloc, i)?;
        match session.take(rt, alloc, desk, &mut sink, gate, Some(line.as_slice())) {
            Ok(()) => {}
            Err(_) => return Err(AllocError),
        }
    }
    match session.run(rt, alloc, desk, &mut sink, gate) {
        Ok(()) if !session.lacked => Ok(session.counts),
        _ => Err(AllocError),
    }
}

// The counts of the replies to n generated jobs, in a session of their own over a desk of its own, and the line of these counts.
fn generated_counts<R: Wait + Threads + Sync, G: Gate>(
    rt: &R,
    alloc: Global,
    gate: &G,
    workers: u64,
    n: u64,
) -> Result<(Counts, Vec<u8>), AllocError>
    ensures counts { IfOk result (λ told. AreCounts n told.0) }
    ensures line { IfOk result (λ told. told.1.items ≡ line_of_counts told.0) }
{
    let (desk, pass) = Desk::new(rt, alloc)?;
    let mut session = Session::new(alloc, pass, workers);
    let counts = count_replies(&mut session, rt, alloc, &desk, gate, n);
    desk.leave(rt, session.end(Storage::Left));
    let counts = counts?;
    let line = counts_line(alloc, counts)?;
    Ok((counts, line))
}

/// Runs n generated jobs by so many workers at most, and writes the line of counts of their replies, which are written nowhere. The process
/// ends next, so that the session's memory is left.
pub fn generate<R: Wait + Threads + Sync, K: Sink, G: Gate>(
    rt: &R,
    alloc: Global,
    sink: &mut K,
    gate: &G,
    workers: u64,
    n: u64,
) -> Ended
    ensures ends { EndsCounting result n (K.faults sink.old) (K.faults sink.new) (K.written sink.old) (K.written sink.new) (K.flushed sink.new) }
{
    let (counts, line) = match generated_counts(rt, alloc, gate, workers, n) {
        Ok(told) => told,
        Err(_) => return Ended::Memory,
    };
    match write_whole(sink, &line) {
        Ok(()) => {}
        Err(_) => return Ended::WriteFault,
    }
    match sink.flush() {
        Ok(()) => Ended::Done(counts.refused == 0),
        Err(_) => Ended::WriteFault,
    }
}
