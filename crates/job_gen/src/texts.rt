//! The texts that generated jobs hold: names of jobs, terms and atoms.
ghost use Rattle.std.specs.Prelude.{◌≡◌, IfOk, string_bytes};
ghost use Rattle.job_gen.specs.Values.{name_text, iterate_text, atom_text};

use std::alloc::{AllocError, Global};

/// The name of the job of line i.
pub fn name(alloc: Global, i: u64) -> Result<String, AllocError>
    ensures { IfOk result (λ text. string_bytes text ≡ name_text i) }
{
    format!(in alloc; "g{i}")
}

/// The k-th f of a.
pub fn iterate(alloc: Global, k: u64) -> Result<String, AllocError>
    ensures { IfOk result (λ text. string_bytes text ≡ iterate_text k) }
{
    let mut term = String::from_str(alloc, "a")?;
    for i in 0..k {
        term = format!(in alloc; "f({term})")?;
    }
    Ok(term)
}

/// The atom p of the k-th f of a.
pub fn atom(alloc: Global, k: u64) -> Result<String, AllocError>
    ensures { IfOk result (λ text. string_bytes text ≡ atom_text k) }
{
    let term = iterate(alloc, k)?;
    format!(in alloc; "p({term})")
}
