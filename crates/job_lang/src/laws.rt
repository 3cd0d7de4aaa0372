//! The laws of readings. The function does nothing: its contract is the law.
ghost use Rattle.std.specs.Prelude.{◌≡◌, ℕ, List, Ok};
ghost use Rattle.job_lang.specs.declared.jobs.Op.{Op as Operation};
ghost use Rattle.job_lang.specs.FormedOps.{IsFormedOp};
ghost use Rattle.job_lang.specs.Jobs.{reads_job};

/// What is read is well formed, however long the line is.
pub fn formed_readings()
    ensures { (line : List ℕ) (op : Operation) → (reads_job line).op ≡ Ok op → IsFormedOp op }
{}
