//! What a line asks for.
ghost use Rattle.std.specs.Prelude.{◌≡◌, ℕ, List, IfOk, false, option_copied};
ghost use Rattle.session_laws.specs.Jobs.{IsKept, is_too_long};
ghost use Rattle.job_windows.specs.Reading.{IsReading};

use job_lang::laws::formed_readings;
use job_lang::{Job, JobError, read_job};
use job_words::Name;
use reply_lines::Outcome;
use std::alloc::{AllocError, Global};
use text_tables::FormulaTexts;

/// What a line is read as.
#[derive(Drop)]
pub enum Reading {
    /// A job, which is run if its name is its own.
    Job(Job),
    /// What is refused before it is run, with its name where that is well formed.
    Refused(Option<Name>, Outcome),
}

// Reads a line that isn't too long.
fn read_short(alloc: Global, texts: &mut FormulaTexts, line: &[u8]) -> Result<Reading, AllocError>
    requires { is_too_long line.now ≡ false }
    ensures { IfOk result (IsReading line.now) }
{
    formed_readings();
    match read_job(alloc, texts, line) {
        Ok(job) => Ok(Reading::Job(job)),
        Err(error) => match error {
            JobError::Memory => Err(AllocError),
            JobError::Fault { name, cause } => {
                Ok(Reading::Refused(name, Outcome::Reading(cause)))
            }
        },
    }
}

/// Reads a line. One that is too long is `None`.
pub fn read(
    alloc: Global,
    texts: &mut FormulaTexts,
    line: Option<&[u8]>,
) -> Result<Reading, AllocError>
    requires { (text : List ℕ) × IsKept (option_copied line) text }
    ensures { (text : List ℕ) → IsKept (option_copied line.entry) text → IfOk result (IsReading text) }
{
    match line {
        Some(line) => read_short(alloc, texts, line),
        None => Ok(Reading::Refused(None, Outcome::LineTooLong)),
    }
}
