//! Reading the problem of a job.
ghost use Rattle.line_values.specs.View.{view};
ghost use Rattle.job_lang.specs.Fields.{Gives};
ghost use Rattle.job_lang.specs.Problems.{problem_at as problem_member};

use crate::places::Place;
use crate::reading::{ReadError, text_at};
use job_words::JobCause;
use line_values::Value;
use std::alloc::Global;
use tptp_problem::{Problem, ProblemError, read_problem};

/// The problem that the member `text` is. No text of a line is as long as the reader's bound of 2^32 bytes, since no line is.
pub fn problem_at(alloc: Global, value: &Value<'_>) -> Result<Problem, ReadError>
    ensures { Gives (λ p. p) result (problem_member (view value.now)) }
{
    let text = text_at(alloc, value, Place::Top, "text")?;
    if text.len() >= 1 << 32 {
        return Err(ReadError::Memory);
    }
    match read_problem(alloc, text.as_bytes()) {
        Ok(problem) => Ok(problem),
        Err(ProblemError::Memory) => Err(ReadError::Memory),
        Err(ProblemError::At { at, kind }) => { Err(ReadError::Fault(JobCause::Tptp { at, kind })) }
    }
}
