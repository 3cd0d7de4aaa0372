//! The choice of printed variables.
ghost use Rattle.std.specs.Prelude.{◌≡◌, ◌+◌, ◌≤◌, ◌<◌, ◌^◌, ◌-◌, ℕ, IfOk, length, slice_index, drop, min};
ghost use Rattle.tptp_print.specs.Choice.{numbers_of as numbers_of_set, outside};
ghost use Rattle.tptp_print.specs.Passed.{HasPassed};

use fol::Var;
use free_variables::Vars;
use std::alloc::{AllocError, Global};

/// The numbers of the numbered variables of a set, rising.
pub fn numbers_of(alloc: Global, vars: &Vars) -> Result<Vec<u64>, AllocError>
    ensures { IfOk result (λ v. v.items ≡ numbers_of_set vars.now) }
{
    vars.as_slice()
        .iter()
        .filter_map(|var| match var {
            Var::Num(number) => Some(*number),
            Var::Word(_) => None,
        })
        .collect(alloc)
}

// How many of the numbers are met on the way to the number with `depth` numbers below it outside, where `passed` of them are met already.
fn pass(numbers: &[u64], depth: u64, passed: usize) -> usize
    requires within { passed ≤ length numbers.now }
    requires fits { depth + length numbers.now < 2 ^ 64 }
    requires passed { HasPassed numbers.now depth passed }
    ensures within { result ≤ length numbers.now }
    ensures passed { HasPassed numbers.now depth result }
    ensures number { outside numbers.now depth ≡ depth + result }
{
    for at in passed..numbers.len() {
        if numbers[at] > depth + at as u64 {
            return at;
        }
    }
    numbers.len()
}

/// The numbers chosen for the first `count` depths of quantifiers.
pub fn choose(alloc: Global, numbers: &[u64], count: usize) -> Result<Vec<u64>, AllocError>
    ensures len { IfOk result (λ v. length v.items ≡ count) }
    ensures chosen { IfOk result (λ v. (d : ℕ) → d < count → slice_index v.items d ≡ outside numbers.now d) }
{
    let mut chosen = Vec::new(alloc);
    let mut passed = 0;
    for depth in 0..count {
        passed = pass(numbers, depth as u64, passed);
        chosen.push((depth + passed) as u64)?;
    }
    Ok(chosen)
}
