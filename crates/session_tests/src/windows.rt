//! Windows of jobs, which several workers run.
use crate::running::{JOB, NONE, REPLY, run, words_of};
use edge_io::{MemSink, MemSource};
use proof_server::{Gate, serve};
use std::alloc::Global;
use std::process::Abort;
use std::sync::Wait;
use std::sync::atomic::{AtomicU64, Ordering};
use std::test::Fail;
use std::thread::Threads;

/// How often a held job looks whether the other one has come.
const MOST_TURNS: u64 = 100_000_000;

/// Holds the first job until the second one has come, and says whether the first has given up.
#[derive(Drop)]
pub struct Meeting {
    came: AtomicU64,
    missed: AtomicU64,
}

impl Meeting {
    pub fn new() -> Meeting {
        Meeting {
            came: AtomicU64::new(0),
            missed: AtomicU64::new(0),
        }
    }

    pub fn has_missed(&self) -> bool {
        self.missed.load(Ordering::SeqCst) != 0
    }
}

impl Gate for Meeting {
    fn pass(&self, job: u64) {
        if job == 2 {
            self.came.store(1, Ordering::SeqCst);
            return;
        }
        for _ in 0..MOST_TURNS {
            if self.came.load(Ordering::SeqCst) == 1 {
                return;
            }
        }
        self.missed.store(1, Ordering::SeqCst);
    }
}

/// A meeting that the window isn't told of, so that there are as many workers as the program would have.
#[derive(Drop)]
struct Unannounced(Meeting);

impl Gate for Unannounced {
    fn pass(&self, job: u64) {
        self.0.pass(job);
    }

    fn may_hold(&self) -> bool {
        false
    }
}

/// The replies to jobs that may be run at the same time, by so many workers, behind a gate.
fn serve_text<R: Wait + Threads + Sync, G: Gate>(
    rt: &R,
    alloc: Global,
    input: &str,
    gate: &G,
    workers: u64,
) -> Result<(u8, Vec<u8>), Fail> {
    let input = Vec::from_slice(alloc, input.as_bytes())?;
    let mut source = MemSource::new(input, 1000, Vec::new(alloc));
    let mut sink = MemSink::new(alloc, 1000, Vec::new(alloc));
    let status = serve(rt, alloc, &mut source, &mut sink, gate, workers);
    Ok((status, sink.into_bytes()))
}

/// Two jobs of one window are run at the same time: the first one waits for the second.
#[test]
fn two_jobs_meet(rt: HostRuntime) -> Result<(), Fail> {
    let input = format!(in rt.alloc(); "{JOB}\n{}\n", JOB.replacen(rt.alloc(), "a", "b", 1)?)?;
    let gate = Meeting::new();
    let (status, replies) = serve_text(&rt, rt.alloc(), input.as_str(), &gate, 2)?;
    assert!(rt; !gate.has_missed());
    assert_eq!(rt; status, 0);
    assert!(rt; replies.starts_with(REPLY.as_bytes()));
    Ok(())
}

/// So are two jobs whose work is worth two workers, though nothing is said of a gate that holds.
#[test]
fn costly_jobs_meet(rt: HostRuntime) -> Result<(), Fail> {
    let job = r#"{"job":"a","op":"tautology","left":["p"],"right":["p"]}"#;
    let input = format!(in rt.alloc(); "{job}\n{}\n", job.replacen(rt.alloc(), "a", "b", 1)?)?;
    let gate = Unannounced(Meeting::new());
    let (status, _) = serve_text(&rt, rt.alloc(), input.as_str(), &gate, 2)?;
    assert!(rt; !gate.0.has_missed());
    assert_eq!(rt; status, 0);
    Ok(())
}

/// Jobs with names, the first a proof, each further one a measure of it, with the replies to them.
fn measures(alloc: Global, count: u64) -> Result<(String, String), Fail> {
    let mut input = format!(in alloc; "{JOB}\n")?;
    let mut replies = String::from_str(alloc, REPLY)?;
    for n in 2..count.saturating_add(1) {
        let job = format!(in alloc; r#"{{"job":"m{n}","op":"measure","proof":"a"}}"#)?;
        let reply = format!(in alloc;
            r#"{{"job":"m{n}","n":{n},"ok":{{"cuts":0,"nodes":1,"quants":0,"size":1}}}}"#
        )?;
        input.push_str(job.as_str())?;
        input.push_str("\n")?;
        replies.push_str(reply.as_str())?;
        replies.push_str("\n")?;
    }
    Ok((input, replies))
}

/// The replies are the same for each number of workers, also where one job more than a window has comes.
fn expect_for_all_workers<R: Abort + Wait + Threads + Sync>(
    rt: &R,
    alloc: Global,
    count: u64,
) -> Result<(), Fail> {
    let (input, replies) = measures(alloc, count)?;
    for line in ["--workers 1", "--workers 2", "--workers 4", "--workers 16"] {
        let words = words_of(alloc, line)?;
        let ran = run(rt, alloc, &words, input.as_bytes(), 1000, NONE)?;
        assert_eq!(rt;
            str::from_utf8(ran.written.as_slice()),
            Ok(replies.as_str()),
            "{line}"
        );
        assert_eq!(rt; ran.status, 0, "{line}");
    }
    Ok(())
}

#[test]
fn windows_of_64_jobs(rt: HostRuntime) -> Result<(), Fail> {
    for count in [1, 63, 64, 65, 129] {
        expect_for_all_workers(&rt, rt.alloc(), count)?;
    }
    Ok(())
}
