//! What is counted of the replies to jobs.
ghost use Rattle.std.specs.Prelude.{◌≡◌, [], ◌∷◌, ℕ, List, IfOk};
ghost use Rattle.serde_json.specs.View.{view};
ghost use Rattle.session_laws.specs.Answers.{Past, Came, job_of};
ghost use Rattle.job_windows.specs.Replying.{IsReply};
ghost use Rattle.proof_server.specs.Counting.{counts_of, counts_data, counts_line as line_of_counts};

use job_windows::ReplyLine;
use serde_json::{Value, json};
use std::alloc::{AllocError, Global};

/// The bytes of reply lines with their newlines, how many jobs there were, how many replies are no error, how many reductions the replies
/// tell of, and how many replies are errors. A count stays at the greatest `u64`.
#[derive(Clone, Copy, PartialEq, Eq)]
pub struct Counts {
    pub bytes: u64,
    pub jobs: u64,
    pub ok: u64,
    pub reductions: u64,
    pub refused: u64,
}

impl Counts {
    /// No reply is counted.
    pub fn new() -> Counts
        ensures { result ≡ counts_of [] }
    {
        Counts {
            bytes: 0,
            jobs: 0,
            ok: 0,
            reductions: 0,
            refused: 0,
        }
    }

    /// Counts one reply more.
    pub fn add(&mut self, reply: &ReplyLine)
        ensures { (earlier : List Past) (text : List ℕ) (came : Came) → self.old ≡ counts_of earlier
            → IsReply reply.now text earlier came
            → self.new ≡ counts_of (job_of text came ∷ earlier) }
    {
        self.bytes = self.bytes.saturating_add(reply.bytes.len() as u64);
        self.jobs = self.jobs.saturating_add(1);
        self.reductions = self.reductions.saturating_add(reply.reductions);
        if reply.is_ok {
            self.ok = self.ok.saturating_add(1);
        } else {
            self.refused = self.refused.saturating_add(1);
        }
    }
}

fn counts_value(alloc: Global, counts: Counts) -> Result<Value, AllocError>
    ensures { IfOk result (λ v. view v ≡ counts_data counts) }
{
    json!(in alloc; {
        "bytes": counts.bytes,
        "jobs": counts.jobs,
        "ok": counts.ok,
        "reductions": counts.reductions,
        "refused": counts.refused,
    })
}

/// The line of counts: compact JSON with its keys in the order of their bytes, and a newline.
#[tactic(auto, unfolding(crate::specs::Counting::counts_line))]
pub fn counts_line(alloc: Global, counts: Counts) -> Result<Vec<u8>, AllocError>
    ensures { IfOk result (λ v. v.items ≡ line_of_counts counts) }
{
    let value = counts_value(alloc, counts)?;
    let mut line = value.to_string(alloc)?.into_bytes();
    line.push(b'\n')?;
    Ok(line)
}
