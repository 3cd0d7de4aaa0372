//! The program: its words, standard input, standard output and standard error, handed to the server.
#![tactic(auto)]

use edge_io::{StdSink, StdSource, write_whole};
use proof_server::{NoGate, top};
use std::alloc::AllocError;
use std::env;
use std::io::{self, BufWriter, ErrorKind};
use std::process::ExitCode;
use std::thread::{Builder, Promise};

/// The bytes of stack that the server asks for, the most first. Formulas, terms and proofs may nest as deeply as a line of
/// input is long, and the system gives memory only to the part of a stack that is used.
const STACK_SIZES: [usize; 4] = [4 << 30, 1 << 30, 256 << 20, 64 << 20];

/// The bytes of output that are gathered before they are written, unless they are flushed first: a call of the system for each reply would
/// take longer than most jobs.
const OUTPUT_SIZE: usize = 64 << 10;

/// What is known of the status that the server's thread ends with: nothing.
#[derive(Drop)]
struct AnyStatus;

impl Promise<u8> for AnyStatus {
    ghost kept_by = { λ _ _. Unit {0} };
}

/// The words after the program's name.
fn words(rt: &HostRuntime) -> io::Result<Vec<String>> {
    let mut words = Vec::new(rt.alloc());
    for word in env::args(rt)?.skip(1) {
        words.push(word)?;
    }
    Ok(words)
}

/// In place of words that can't be read as text: one word that no command takes.
fn no_word(rt: &HostRuntime) -> Result<Vec<String>, AllocError> {
    let mut words = Vec::new(rt.alloc());
    words.push(String::new(rt.alloc()))?;
    Ok(words)
}

/// Ends where memory ran out before the server was run, as it ends where that is so later.
fn end_without_memory(rt: &HostRuntime) -> ExitCode {
    let _ = write_whole(&mut StdSink::new(rt.stderr()), b"gaptd: out of memory\n");
    ExitCode::from(5)
}

/// Runs the server in a thread with a stack as large as the system gives. Where it gives no such thread, memory has run out: this one's stack
/// may not have the room for proofs with some thousand inferences above one another.
fn main(rt: HostRuntime) -> ExitCode {
    let words = match words(&rt) {
        Ok(words) => words,
        Err(error) if error.kind() == ErrorKind::InvalidData => match no_word(&rt) {
            Ok(words) => words,
            Err(_) => return end_without_memory(&rt),
        },
        Err(_) => return end_without_memory(&rt),
    };
    let alloc = rt.alloc();
    let mut source = StdSource::new(rt.stdin());
    let mut sink = match BufWriter::with_capacity(alloc, OUTPUT_SIZE, rt.stdout()) {
        Ok(writer) => StdSink::new(writer),
        Err(_) => return end_without_memory(&rt),
    };
    let mut notes = StdSink::new(rt.stderr());
    let mut serve = move || top(
        &rt,
        alloc,
        &words,
        &mut source,
        &mut sink,
        &mut notes,
        &NoGate,
    );
    for size in STACK_SIZES {
        match Builder::new()
            .stack_size(size)
            .spawn_with(&rt, AnyStatus, serve)
        {
            Ok(thread) => return ExitCode::from(thread.join(&rt)),
            Err(error) => serve = error.value,
        }
    }
    end_without_memory(&rt)
}
