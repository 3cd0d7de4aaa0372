//! Lines of generated jobs.
ghost use Rattle.std.specs.Prelude.{◌≡◌, ◌≤◌, IfOk};
ghost use Rattle.serde_json.specs.Written.{compact_text};
ghost use Rattle.job_gen.specs.Generated.{job_data, generated_line, generated};

use crate::jobs::put_job;
use json_text::JsonText;
use std::alloc::{AllocError, Global};

fn job_text(alloc: Global, i: u64) -> Result<Vec<u8>, AllocError>
    ensures { IfOk result (λ v. v.items ≡ compact_text (job_data i)) }
{
    let mut out = JsonText::new(alloc)?;
    put_job(&mut out, alloc, i);
    out.finish()
}

/// The line of the i-th job, from 0: compact JSON with its keys in the order of their bytes, and a newline.
#[tactic(auto, unfolding(crate::specs::Generated::generated_line))]
pub fn generate_line(alloc: Global, i: u64) -> Result<Vec<u8>, AllocError>
    ensures { IfOk result (λ v. v.items ≡ generated_line i) }
{
    let mut line = job_text(alloc, i)?;
    line.push(b'\n')?;
    Ok(line)
}

/// The lines of the first n jobs. A job names jobs before it alone, so whoever takes the lines in order finds all that they name.
#[tactic(auto, unfolding(crate::specs::Generated::generated))]
pub fn generate(alloc: Global, n: u64) -> Result<Vec<u8>, AllocError>
    requires some { 1 ≤ n }
    requires most { n ≤ 100000 }
    ensures { IfOk result (λ v. v.items ≡ generated n) }
{
    let mut lines = Vec::new(alloc);
    for i in 0..n {
        lines.extend_from_slice(generate_line(alloc, i)?.as_slice())?;
    }
    Ok(lines)
}
