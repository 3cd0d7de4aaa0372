//! The reply line of a job.
ghost use Rattle.std.specs.Prelude.{◌≡◌, ◌+◌, ◌<◌, ◌^◌, ℕ, List, IfOk, false, length};
ghost use Rattle.reply_lines.specs.OneLine.{is_want};
ghost use Rattle.session_laws.specs.Answers.{Past, Came, name_of, run_line, held_of};
ghost use Rattle.session_laws.specs.Replying.{reductions_in};
ghost use Rattle.job_windows.specs.Running.{IsConclusion, IsUnnamed};
ghost use Rattle.job_windows.specs.Replying.{IsReply};

use crate::seats::Due;
use held_values::Held;
use reply_lines::{Outcome, Reply, reply_line};
use std::alloc::{AllocError, Global};
use text_tables::CanonicalTexts;

/// A reply line with its newline, whether it is no error, how many reductions it tells of, whether it reports want of memory, and what
/// its job holds.
#[derive(Drop)]
pub struct ReplyLine {
    pub bytes: Vec<u8>,
    pub is_ok: bool,
    pub reductions: u64,
    pub lacked: bool,
    pub held: Held,
}

// How many reductions are told of, where this is the answer to a cut elimination.
fn reductions_of(outcome: &Outcome) -> u64
    ensures { result ≡ reductions_in outcome.now }
{
    match outcome {
        Outcome::Reduced(_, reductions) => *reductions,
        _ => 0,
    }
}

// Whether there was no memory for the name that a refusal shows.
fn is_unnamed(outcome: &Outcome, held: &Held) -> bool
    ensures { result ≡ false → ¬ IsUnnamed outcome.now held.now }
{
    matches!(outcome, Outcome::Memory) && matches!(held, Held::Refused)
}

// Whether the reply is want of memory.
fn lacks_memory(outcome: &Outcome) -> bool
    ensures { result ≡ is_want outcome.now }
{
    matches!(outcome, Outcome::Memory)
}

impl Due {
    /// The reply line of a job that comes after `count` others. Want of memory is answered too where there was none for the name that a
    /// refusal shows.
    pub fn reply(
        self,
        alloc: Global,
        texts: &mut CanonicalTexts,
        count: u64,
    ) -> Result<ReplyLine, AllocError>
        requires { count + 1 < 2 ^ 64 }
        ensures named { IfOk result (λ _. ¬ IsUnnamed self.outcome self.held) }
        ensures held { IfOk result (λ r. r.held ≡ self.held) }
        ensures reply { (earlier : List Past) (line : List ℕ) (came : Came) → count ≡ length earlier → self.name ≡ name_of line
            → IsConclusion self.outcome self.held (run_line (held_of earlier) line) came
            → IfOk result (λ r. IsReply r line earlier came) }
    {
        let Due {
            name,
            outcome,
            held,
        } = self;
        if is_unnamed(&outcome, &held) {
            return Err(AllocError);
        }
        let lacked = lacks_memory(&outcome);
        let is_ok = outcome.is_ok();
        let reductions = reductions_of(&outcome);
        let reply = Reply {
            name,
            n: count + 1,
            outcome,
        };
        let bytes = reply_line(alloc, texts, &reply)?;
        Ok(ReplyLine {
            bytes,
            is_ok,
            reductions,
            lacked,
            held,
        })
    }
}
