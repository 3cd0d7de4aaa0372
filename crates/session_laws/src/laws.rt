//! The laws of what is answered. Each function does nothing: its contract is the law.
ghost use Rattle.std.specs.Prelude.{◌≡◌, ◌++◌, ℕ, List, false};
ghost use Rattle.std.specs.List.{All};
ghost use Rattle.reply_lines.specs.OneLine.{IsOneLine};
ghost use Rattle.session_laws.specs.Answers.{Past, Came, lacked, in_order, run_line, held_of, IsAllowed, AsksOne, AreAllowed, job_of};
ghost use Rattle.session_laws.specs.Claimed.{AreClaimed, HoldsSound};
ghost use Rattle.session_laws.specs.Replying.{reply_line};
ghost use Rattle.session_laws.specs.Session.{out, flags_of, memory_flags, IsPartOfNext, Replies, RepliesInPart};

use job_lang::laws::formed_readings;
use operation_laws::laws::{claims, replies as answers_shown};
use reply_lines::laws::lines;

/// Each value that a name stands for is sound: a proof is valid, and a problem is such as is read. What each job makes is what its
/// operation claims.
pub fn held_proofs()
    ensures held { (earlier : List Past) → AreAllowed earlier → HoldsSound (held_of earlier) }
    ensures claimed { (jobs : List Past) → AreAllowed jobs → AreClaimed jobs }
{
    formed_readings();
    claims();
    answers_shown();
}

/// A reply line is one line, so the bytes of replies tell which jobs lacked memory. A line of a job tells what the job came to, so bytes are
/// the replies of at most one list of jobs to the same lines. Where each line has one answer, and no job lacked memory, the lines tell that list.
pub fn replies()
    ensures one_line { (earlier : List Past) (job : Past) → IsOneLine (reply_line earlier job) }
    ensures told { (done : List Past) (waiting : List (List ℕ)) (part : List ℕ) → IsPartOfNext done waiting part
        → flags_of done ≡ memory_flags (out done ++ part) }
    ensures one_reply { (earlier : List Past) (line : List ℕ) (c d : Came) → IsAllowed (run_line (held_of earlier) line) c
        → IsAllowed (run_line (held_of earlier) line) d → reply_line earlier (job_of line c) ≡ reply_line earlier (job_of line d) → c ≡ d }
    ensures one_list { (asked : List (List ℕ)) (written : List ℕ) (a b : Replies asked written) → a.done ≡ b.done }
    ensures one_ample { (a b : List Past) → AreAllowed a → AreAllowed b → in_order a ≡ in_order b → All AsksOne (in_order a)
        → All (λ job. lacked job ≡ false) a → All (λ job. lacked job ≡ false) b → a ≡ b }
    ensures one_front { (asked : List (List ℕ)) (written : List ℕ) (a b : RepliesInPart asked written) → a.done ≡ b.done }
{
    lines();
    answers_shown();
}
