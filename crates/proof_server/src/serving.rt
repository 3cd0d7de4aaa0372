//! A whole session, over a desk of its own or one that others use too.
ghost use Rattle.std.specs.Prelude.{◌≡◌, [], false};
ghost use Rattle.proof_server.specs.Ending.{Ends};
ghost use Rattle.session_laws.specs.Jobs.{max_input};
ghost use Rattle.cut_elim.specs.Desks.{IsDeskPassOf};
ghost use Rattle.proof_server.specs.Turn.{ended_of, IsAt};

use crate::ending::Ended;
use crate::session::{Session, Stop, Storage};
use cut_elim::{Desk, DeskPass};
use edge_io::{LineReader, Next, Sink, Source, next_line};
use job_workers::Gate;
use session_laws::laws::held_proofs;
use std::alloc::Global;
use std::mem;
use std::sync::Wait;
use std::thread::Threads;

const MAX_LINE: u64 = 16_777_216;

const MAX_INPUT: u64 = 4_294_967_296;

/// How a session ends that can't go on.
fn ended_by(stop: Stop) -> Ended
    ensures { result ≡ ended_of stop }
{
    match stop {
        Stop::WriteFault => Ended::WriteFault,
        Stop::Memory => Ended::Memory,
    }
}

// All lines of the source, by a new reader and a new session. What is gathered is run in the end, also where reading fails.
fn serve_lines<R: Wait + Threads + Sync, S: Source, K: Sink, G: Gate>(
    rt: &R,
    alloc: Global,
    desk: &Desk,
    reader: &mut LineReader,
    session: &mut Session,
    source: &mut S,
    sink: &mut K,
    gate: &G,
) -> Ended
    requires reader { reader.old ≡ record { pending = []; room = max_input; at_end = false; ended = false } }
    requires session { IsAt desk.now session.old [] [] }
    ensures ends { Ends result max_input (S.faults source.old) (S.faults source.new) (K.faults sink.old) (K.faults sink.new)
        (S.left source.old) (S.left source.new) (K.written sink.old) (K.written sink.new) (K.flushed sink.new) }
    ensures pass { IsDeskPassOf desk.now session.new.store.pass }
{
    held_proofs();
    'lines: loop {
        match next_line(reader, source, MAX_LINE) {
            Next::Line(line) => match session.take(
                rt,
                alloc,
                desk,
                sink,
                gate,
                Some(line.as_slice()),
            ) {
                Ok(()) => {}
                Err(stop) => return ended_by(stop),
            },
            Next::TooLong => match session.take(rt, alloc, desk, sink, gate, None) {
                Ok(()) => {}
                Err(stop) => return ended_by(stop),
            },
            Next::End => match session.run(rt, alloc, desk, sink, gate) {
                Ok(()) => return Ended::Done(session.good),
                Err(stop) => return ended_by(stop),
            },
            Next::ReadFault => match session.run(rt, alloc, desk, sink, gate) {
                Ok(()) => return Ended::ReadFault,
                Err(stop) => return ended_by(stop),
            },
            Next::InputFull => match session.run(rt, alloc, desk, sink, gate) {
                Ok(()) => return Ended::InputFull,
                Err(stop) => return ended_by(stop),
            },
            Next::Memory => return Ended::Memory,
        }
    }
}

/// A whole session over a desk, by so many workers at most: every job of the source gets its reply on the sink, in order. The session works
/// with the very pass that is lent, whose arena serves the next one too. In the end what it had for itself is given back or left.
pub fn serve_over<R: Wait + Threads + Sync, S: Source, K: Sink, G: Gate>(
    rt: &R,
    alloc: Global,
    desk: &Desk,
    pass: &mut DeskPass,
    source: &mut S,
    sink: &mut K,
    gate: &G,
    workers: u64,
    storage: Storage,
) -> Ended
    requires pass { IsDeskPassOf desk.now pass.old }
    ensures ends { Ends result max_input (S.faults source.old) (S.faults source.new) (K.faults sink.old) (K.faults sink.new)
        (S.left source.old) (S.left source.new) (K.written sink.old) (K.written sink.new) (K.flushed sink.new) }
    ensures pass { IsDeskPassOf desk.now pass.new }
{
    let mut reader = match LineReader::new(alloc, MAX_INPUT) {
        Ok(reader) => reader,
        Err(_) => return Ended::Memory,
    };
    let spare = desk.split(alloc, pass);
    let mut session = Session::new(alloc, mem::replace(pass, spare), workers);
    let ended = serve_lines(
        rt,
        alloc,
        desk,
        &mut reader,
        &mut session,
        source,
        sink,
        gate,
    );
    let spare = mem::replace(pass, session.end(storage));
    desk.join(pass, spare);
    ended
}

/// A whole session over a desk of its own, as by `serve_over`. In the end the desk's memory too is given back or left.
pub fn serve_session<R: Wait + Threads + Sync, S: Source, K: Sink, G: Gate>(
    rt: &R,
    alloc: Global,
    source: &mut S,
    sink: &mut K,
    gate: &G,
    workers: u64,
    storage: Storage,
) -> Ended
    ensures ends { Ends result max_input (S.faults source.old) (S.faults source.new) (K.faults sink.old) (K.faults sink.new)
        (S.left source.old) (S.left source.new) (K.written sink.old) (K.written sink.new) (K.flushed sink.new) }
{
    let (desk, mut pass) = match Desk::new(rt, alloc) {
        Ok(made) => made,
        Err(_) => return Ended::Memory,
    };
    let ended = serve_over(
        rt, alloc, &desk, &mut pass, source, sink, gate, workers, storage,
    );
    match storage {
        Storage::Freed => desk.close(rt, pass),
        Storage::Left => desk.leave(rt, pass),
    }
    ended
}
