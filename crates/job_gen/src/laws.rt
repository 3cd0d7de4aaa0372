//! The laws of generated lines. The function does nothing: its contract is the laws.
ghost use Rattle.std.specs.Prelude.{◌≤◌, ◌*◌, ℕ, length};
ghost use Rattle.job_gen.specs.Generated.{generated_line, generated};
ghost use Rattle.job_gen.specs.PrintableLine.{IsPrintableLine};
ghost use Rattle.job_gen.specs.ReadLine.{IsRead};

/// A generated line is one line of printable ASCII, and has 4,096 bytes at most, so that a server takes each, and the lines of 100,000
/// jobs take less than 410 MB. What stands before its newline is read as the job that it was made from.
pub fn lines()
    ensures one { (i : ℕ) → IsPrintableLine (generated_line i) }
    ensures short { (i : ℕ) → length (generated_line i) ≤ 4096 }
    ensures few { (n : ℕ) → length (generated n) ≤ 4096 * n }
    ensures read { (i : ℕ) → IsRead i }
{}
