//! The command: what its words ask for is run, and its end is noted.
ghost use Rattle.std.specs.Prelude.{◌≡◌, ◌⊎◌, ℕ, IsNone, IsSome, Some, map, string_bytes, true};
ghost use Rattle.command_words.specs.Words.{settings_of};
ghost use Rattle.cut_elim.specs.Desks.{IsDeskPassOf};
ghost use Rattle.proof_server.specs.Bundles.{EndsSessions, AreComplete, status_of_sessions};
ghost use Rattle.proof_server.specs.Command.{
  workers_asked,
  jobs_asked,
  bundle_asked,
  Serves,
  IsComplete,
  IsNoted,
  Notes,
  note_of_command,
  note_of_sessions,
  status_of_command,
};
ghost use Rattle.proof_server.specs.Ending.{status_of};
ghost use Rattle.proof_server.specs.Generating.{Generates};
ghost use Rattle.proof_server.specs.Writing.{Puts};

use crate::bundles::{EndedSessions, serve_bundle, sessions_status};
use crate::ending::Ended;
use crate::generating::generate;
use crate::notes::{note, put_sessions_note};
use crate::serving::{serve_over, serve_session};
use crate::session::Storage;
use crate::writing::put;
use command_words::{WordsError, read_words};
use cut_elim::{Desk, DeskPass};
use edge_io::{Failed, Sink, Source};
use job_workers::Gate;
use std::alloc::Global;
use std::sync::Wait;
use std::thread::Threads;

/// The status of a command line that isn't taken.
const USAGE: u8 = 2;

/// How a run of the command ended.
#[derive(Clone, Copy)]
pub enum EndedCommand {
    /// The words aren't taken.
    Refused,
    /// As a session, or a run over generated jobs.
    Session(Ended),
    /// As the sessions of a bundle.
    Sessions(EndedSessions),
}

/// The status that a session ends with.
fn status(ended: Ended) -> u8
    ensures { result ≡ status_of ended }
{
    match ended {
        Ended::Done(true) => 0,
        Ended::Done(false) => 1,
        Ended::ReadFault => 3,
        Ended::WriteFault => 4,
        Ended::Memory => 5,
        Ended::InputFull => 6,
    }
}

/// The status that the command ends with.
fn command_status(ended: EndedCommand) -> u8
    ensures { result ≡ status_of_command ended }
{
    match ended {
        EndedCommand::Refused => USAGE,
        EndedCommand::Session(ended) => status(ended),
        EndedCommand::Sessions(ended) => sessions_status(ended),
    }
}

/// Notes how the command ended, by one line or none.
fn put_note<E: Sink>(notes: &mut E, ended: EndedCommand) -> Result<(), Failed>
    ensures { Puts result (note_of_command ended) (E.faults notes.old) (E.faults notes.new) (E.written notes.old) (E.written notes.new) }
{
    match ended {
        EndedCommand::Refused => put(notes, note(USAGE)),
        EndedCommand::Session(ended) => put(notes, note(status(ended))),
        EndedCommand::Sessions(ended) => put_sessions_note(notes, ended),
    }
}

/// A whole session: every job of the source, one a line, gets its reply on the sink, in order. Jobs gather in a window, which is run by so
/// many workers at most where a line is empty, where there are 64 jobs or 16 MiB of lines, and in the end. The answer is the status of the
/// session's end, as that of `top`. The gate is passed by the worker that took a job, before the job is run.
pub fn serve<R: Wait + Threads + Sync, S: Source, K: Sink, G: Gate>(
    rt: &R,
    alloc: Global,
    source: &mut S,
    sink: &mut K,
    gate: &G,
    workers: u64,
) -> u8
    ensures served { Serves result (S.faults source.old) (S.faults source.new) (K.faults sink.old) (K.faults sink.new)
        (S.left source.old) (S.left source.new) (K.written sink.old) (K.written sink.new) (K.flushed sink.new) }
    ensures complete { IsComplete result (S.faults source.old) (S.faults source.new) (K.faults sink.old) (K.faults sink.new)
        (S.left source.old) }
{
    status(serve_session(rt, alloc, source, sink, gate, workers, Storage::Freed))
}

/// A session as by `serve`, over a desk that others may use at the same time, each with a pass of its own: whatever the desk's graph and
/// tables hold, the replies are those to the source's own jobs, and names are the session's own.
pub fn serve_on<R: Wait + Threads + Sync, S: Source, K: Sink, G: Gate>(
    rt: &R,
    alloc: Global,
    desk: &Desk,
    pass: &mut DeskPass,
    source: &mut S,
    sink: &mut K,
    gate: &G,
    workers: u64,
) -> u8
    requires pass { IsDeskPassOf desk.now pass.old }
    ensures served { Serves result (S.faults source.old) (S.faults source.new) (K.faults sink.old) (K.faults sink.new)
        (S.left source.old) (S.left source.new) (K.written sink.old) (K.written sink.new) (K.flushed sink.new) }
    ensures complete { IsComplete result (S.faults source.old) (S.faults source.new) (K.faults sink.old) (K.faults sink.new)
        (S.left source.old) }
    ensures pass { IsDeskPassOf desk.now pass.new }
{
    status(serve_over(
        rt,
        alloc,
        desk,
        pass,
        source,
        sink,
        gate,
        workers,
        Storage::Freed,
    ))
}

/// Serves the source, as a session or as the sessions of a bundle, or runs generated jobs, as the words ask.
fn run<R: Wait + Threads + Sync, S: Source, K: Sink, G: Gate>(
    rt: &R,
    alloc: Global,
    words: &[String],
    source: &mut S,
    sink: &mut K,
    gate: &G,
) -> EndedCommand
    ensures refused { IsNone (settings_of (map string_bytes words.now))
        → ((status_of_command result ≡ 2) ⊎ (status_of_command result ≡ 5)) × (source.new ≡ source.old) × (sink.new ≡ sink.old) }
    ensures served { IsSome (workers_asked (map string_bytes words.now)) → Serves (status_of_command result) (S.faults source.old) (S.faults source.new)
        (K.faults sink.old) (K.faults sink.new) (S.left source.old) (S.left source.new) (K.written sink.old) (K.written sink.new) (K.flushed sink.new) }
    ensures complete { IsSome (workers_asked (map string_bytes words.now)) → IsComplete (status_of_command result) (S.faults source.old) (S.faults source.new)
        (K.faults sink.old) (K.faults sink.new) (S.left source.old) }
    ensures generated { (n : ℕ) → jobs_asked (map string_bytes words.now) ≡ Some n → (source.new ≡ source.old)
        × Generates (status_of_command result) n (K.faults sink.old) (K.faults sink.new) (K.written sink.old) (K.written sink.new) (K.flushed sink.new) }
    ensures sessions { bundle_asked (map string_bytes words.now) ≡ true → (ended : EndedSessions)
        × (status_of_command result ≡ status_of_sessions ended) × (note_of_command result ≡ note_of_sessions ended)
        × EndsSessions ended (S.faults source.old) (S.faults source.new) (K.faults sink.old) (K.faults sink.new)
        (S.left source.old) (S.left source.new) (K.written sink.old) (K.written sink.new) (K.flushed sink.new) }
{
    let settings = match read_words(alloc, words) {
        Ok(settings) => settings,
        Err(WordsError::Usage) => return EndedCommand::Refused,
        Err(WordsError::Memory) => return EndedCommand::Session(Ended::Memory),
    };
    if settings.sessions {
        let ended = serve_bundle(rt, alloc, source, sink, gate, settings.workers);
        return EndedCommand::Sessions(ended);
    }
    match settings.generate {
        None => EndedCommand::Session(serve_session(
            rt,
            alloc,
            source,
            sink,
            gate,
            settings.workers,
            Storage::Left,
        )),
        Some(n) => EndedCommand::Session(generate(rt, alloc, sink, gate, settings.workers, n)),
    }
}

/// Runs the command with the words that follow the program's name, and answers its exit status.
///
/// The words are those of `gaptd [--workers N] [--gen N] [--sessions]`, as `command_words` reads them. If they are taken and have neither
/// `--gen` nor `--sessions`, the jobs of `source`, one a line, are answered on `sink`, a reply line for each job in order, as by `serve` with
/// so many workers:
///
/// - 0: the input was read to its end, all was written and flushed, and every reply is Ok;
/// - 1: the same, and some reply is an error;
/// - 2: the words aren't taken, and nothing was read or written;
/// - 3: reading failed, and the replies to the whole lines read were written and flushed;
/// - 4: writing or flushing failed;
/// - 5: memory ran out;
/// - 6: the input has more than 2^32 bytes, and the replies to the whole lines within these were written and flushed.
///
/// With `--gen N` the first N generated jobs are answered in place of those of `source`, from which nothing is read, and of their replies the
/// counts alone are written: one line of JSON with the bytes of the reply lines, the number of jobs, of Ok replies, of the reductions that
/// the replies to cut eliminations tell of, and of errors. The statuses are 0, 1, 4 and 5, and 5 is also that of a job that lacks memory.
///
/// With `--sessions` the input is a bundle, as `read_bundle` reads it. It is read to its end first; then its sessions are run by so many
/// workers, as by `serve_parts`; and then for each session, in the order of their first lines, the line `@K` with its number is written, and
/// behind it the replies to its lines. The statuses are 0 and 1 as above; 3, 6 and 7, where nothing is written: reading failed, the input has
/// more than 67,108,864 bytes, or a line that begins with `@` is no switch to a session; 4; and 5, where what is written is the beginning of
/// the replies, of sessions before the first one that memory ran out for.
///
/// A status above 1 is noted on `notes` by one line, which for 7 has the number of the line, counted from 1. A failed write there changes no
/// status. The memory that a session had isn't given back, as the process ends next.
pub fn top<R: Wait + Threads + Sync, S: Source, K: Sink, E: Sink, G: Gate>(
    rt: &R,
    alloc: Global,
    words: &[String],
    source: &mut S,
    sink: &mut K,
    notes: &mut E,
    gate: &G,
) -> u8
    ensures refused { IsNone (settings_of (map string_bytes words.now))
        → ((result ≡ 2) ⊎ (result ≡ 5)) × (source.new ≡ source.old) × (sink.new ≡ sink.old) }
    ensures served { IsSome (workers_asked (map string_bytes words.now)) → Serves result (S.faults source.old) (S.faults source.new) (K.faults sink.old) (K.faults sink.new)
        (S.left source.old) (S.left source.new) (K.written sink.old) (K.written sink.new) (K.flushed sink.new) }
    ensures complete { IsSome (workers_asked (map string_bytes words.now)) → IsComplete result (S.faults source.old) (S.faults source.new) (K.faults sink.old) (K.faults sink.new)
        (S.left source.old) }
    ensures generated { (n : ℕ) → jobs_asked (map string_bytes words.now) ≡ Some n → (source.new ≡ source.old)
        × Generates result n (K.faults sink.old) (K.faults sink.new) (K.written sink.old) (K.written sink.new) (K.flushed sink.new) }
    ensures sessions { bundle_asked (map string_bytes words.now) ≡ true → (ended : EndedSessions) × (result ≡ status_of_sessions ended)
        × EndsSessions ended (S.faults source.old) (S.faults source.new) (K.faults sink.old) (K.faults sink.new)
        (S.left source.old) (S.left source.new) (K.written sink.old) (K.written sink.new) (K.flushed sink.new)
        × IsNoted (note_of_sessions ended) (E.faults notes.old) (E.faults notes.new) (E.written notes.old) (E.written notes.new) }
    ensures sessions_complete { bundle_asked (map string_bytes words.now) ≡ true → AreComplete result (S.faults source.old) (S.faults source.new)
        (K.faults sink.old) (K.faults sink.new) (S.left source.old) }
    ensures noted { ¬ (result ≡ 7) → Notes result (E.faults notes.old) (E.faults notes.new) (E.written notes.old) (E.written notes.new) }
{
    let ended = run(rt, alloc, words, source, sink, gate);
    let _ = put_note(notes, ended);
    command_status(ended)
}
