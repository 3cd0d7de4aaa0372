//! A run of the sessions of a bundle: all is read, then they are run at once, and then their replies are written.
ghost use Rattle.std.specs.Prelude.{◌≡◌, ◌≤◌, ◌++◌, List};
ghost use Rattle.std.specs.List.{AllZip};
ghost use Rattle.sessions.specs.Parts.{sections};
ghost use Rattle.sessions.specs.declared.parts.Part.{Part};
ghost use Rattle.proof_server.specs.Parts.{IsServed};
ghost use Rattle.proof_server.specs.Writing.{Puts};
ghost use Rattle.proof_server.specs.Bundles.{EndsSessions, WritesSessions, status_of_sessions, switch_line};

use crate::parts::{Done, run_parts};
use crate::session::{Stop, Storage};
use crate::writing::{put, put_numbered};
use edge_io::{Failed, Sink, Source};
use job_workers::Gate;
use sessions::{Bundle, read_bundle};
use std::alloc::Global;
use std::sync::Wait;
use std::thread::Threads;

/// How a run of the sessions of a bundle ended.
#[derive(Clone, Copy, Debug, PartialEq, Eq)]
pub enum EndedSessions {
    /// The input was read to its end and all replies were written; true where none of them is an error.
    Done(bool),
    /// The line with this number, counted from 1, begins with `@` and is no switch to a session.
    Switch(u64),
    /// Reading failed.
    ReadFault,
    /// The input is longer than a bundle may be.
    InputFull,
    /// Writing or flushing failed.
    WriteFault,
    /// Memory ran out.
    Memory,
}

/// The status that the sessions of a bundle end with.
pub(crate) fn sessions_status(ended: EndedSessions) -> u8
    ensures { result ≡ status_of_sessions ended }
{
    match ended {
        EndedSessions::Done(true) => 0,
        EndedSessions::Done(false) => 1,
        EndedSessions::ReadFault => 3,
        EndedSessions::WriteFault => 4,
        EndedSessions::Memory => 5,
        EndedSessions::InputFull => 6,
        EndedSessions::Switch(_) => 7,
    }
}

// Writes the switch to a session, and behind it the session's replies.
fn put_session<K: Sink>(sink: &mut K, done: &Done) -> Result<(), Failed>
    ensures puts { Puts result (switch_line done.now.session ++ done.now.bytes.items) (K.faults sink.old) (K.faults sink.new)
        (K.written sink.old) (K.written sink.new) }
    ensures kept { K.faults sink.old ≤ K.faults sink.new }
{
    match put_numbered(sink, b"@", done.session as u64) {
        Ok(()) => put(sink, &done.bytes),
        Err(failed) => Err(failed),
    }
}

// Writes each session with its replies, in order, and says whether none of the replies is an error. It stops before the first session that
// memory ran out for.
fn put_sessions<K: Sink>(sink: &mut K, dones: &[Done]) -> Result<bool, Stop>
    ensures writes { (parts : List Part) → AllZip IsServed parts dones.now
        → WritesSessions result (sections parts) (K.faults sink.old) (K.faults sink.new) (K.written sink.old) (K.written sink.new) }
    ensures kept { K.faults sink.old ≤ K.faults sink.new }
{
    let mut good = true;
    for done in dones {
        if done.status == 5 {
            return Err(Stop::Memory);
        }
        match put_session(sink, done) {
            Ok(()) => {}
            Err(_) => return Err(Stop::WriteFault),
        }
        good &= done.status == 0;
    }
    Ok(good)
}

/// Reads a bundle of sessions to its end, runs them by so many workers at most, and writes their replies: for each session, in the order of
/// their first lines, the line `@K` with its number, and behind it the replies to its lines. In the end all is flushed. Where memory ran out
/// for a session, the replies of those before it are written.
pub(crate) fn serve_bundle<R: Wait + Threads + Sync, S: Source, K: Sink, G: Gate>(
    rt: &R,
    alloc: Global,
    source: &mut S,
    sink: &mut K,
    gate: &G,
    workers: u64,
) -> EndedSessions
    ensures ends { EndsSessions result (S.faults source.old) (S.faults source.new) (K.faults sink.old) (K.faults sink.new)
        (S.left source.old) (S.left source.new) (K.written sink.old) (K.written sink.new) (K.flushed sink.new) }
{
    let parts = match read_bundle(alloc, source) {
        Bundle::Parts(parts) => parts,
        Bundle::Switch(number) => return EndedSessions::Switch(number),
        Bundle::ReadFault => return EndedSessions::ReadFault,
        Bundle::InputFull => return EndedSessions::InputFull,
        Bundle::Memory => return EndedSessions::Memory,
    };
    let dones = match run_parts(rt, alloc, parts, workers, gate, Storage::Left) {
        Ok(dones) => dones,
        Err(_) => return EndedSessions::Memory,
    };
    match put_sessions(sink, &dones) {
        Ok(good) => match sink.flush() {
            Ok(()) => EndedSessions::Done(good),
            Err(_) => EndedSessions::WriteFault,
        },
        Err(Stop::WriteFault) => EndedSessions::WriteFault,
        Err(Stop::Memory) => {
            let _ = sink.flush();
            EndedSessions::Memory
        }
    }
}
