//! Sessions over ends in memory.
use edge_io::{MemSink, MemSource};
use proof_server::{NoGate, top};
use std::alloc::{AllocError, Global};
use std::process::Abort;
use std::sync::Wait;
use std::test::Fail;
use std::thread::Threads;

/// The axiom of p as a proof with the name `a`.
pub const JOB: &str =
    r#"{"job":"a","op":"lk","steps":[{"rule":"ax","main":"p","premises":[],"left":["p"],"right":["p"]}]}"#;

/// The reply to `JOB` as a first job.
pub const REPLY: &str = r#"{"job":"a","n":1,"ok":{"cuts":0,"left":["p"],"quants":0,"right":["p"]}}
"#;

/// The calls on the ends that fail, by their numbers from 1: a read, a write or flush, a write of a note. At 0 none does.
#[derive(Clone, Copy, Debug)]
pub struct Failing {
    pub read: u64,
    pub write: u64,
    pub note: u64,
}

/// No call fails.
pub const NONE: Failing = Failing {
    read: 0,
    write: 0,
    note: 0,
};

/// What a session answered, wrote and noted.
#[derive(Debug, Drop)]
pub struct Ran {
    pub status: u8,
    pub written: Vec<u8>,
    pub notes: Vec<u8>,
}

/// The words of a line, which stand between spaces.
pub fn words_of(alloc: Global, line: &str) -> Result<Vec<String>, AllocError> {
    let mut words = Vec::new(alloc);
    for word in line.split_whitespace() {
        words.push(String::from_str(alloc, word)?)?;
    }
    Ok(words)
}

/// A session with these words, over ends that move `piece` bytes a call.
pub fn run<R: Wait + Threads + Sync>(
    rt: &R,
    alloc: Global,
    words: &[String],
    input: &[u8],
    piece: u64,
    failing: Failing,
) -> Result<Ran, AllocError> {
    let piece = piece.max(1);
    let mut source = MemSource::new(
        Vec::from_slice(alloc, input)?,
        piece,
        vec![in alloc; failing.read]?,
    );
    let mut sink = MemSink::new(alloc, piece, vec![in alloc; failing.write]?);
    let mut notes = MemSink::new(alloc, 1000, vec![in alloc; failing.note]?);
    let status = top(
        rt,
        alloc,
        words,
        &mut source,
        &mut sink,
        &mut notes,
        &NoGate,
    );
    Ok(Ran {
        status,
        written: sink.into_bytes(),
        notes: notes.into_bytes(),
    })
}

/// Sees that a session over these bytes writes these replies and notes nothing.
pub fn expect<R: Abort + Wait + Threads + Sync>(
    rt: &R,
    alloc: Global,
    input: &[u8],
    piece: u64,
    status: u8,
    replies: &str,
) -> Result<(), Fail> {
    let ran = run(rt, alloc, &[], input, piece, NONE)?;
    assert_eq!(rt; str::from_utf8(ran.written.as_slice()), Ok(replies));
    assert_eq!(rt; ran.status, status);
    assert!(rt; ran.notes.is_empty());
    Ok(())
}
