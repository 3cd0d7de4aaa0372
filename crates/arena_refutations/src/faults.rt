//! Why there is no proof.
ghost use Rattle.std.specs.Prelude.{◌≡◌};
ghost use Rattle.arena_refutations.specs.declared.faults.ImportFault.TheVariants as import_fault;
ghost use Rattle.arena_refutations.specs.declared.faults.StepFault.TheVariants as step_fault;

use refutations::ResCause;
use std::alloc::AllocError;

/// Why a refutation has no proof.
#[derive(Clone, Copy, PartialEq, Eq)]
pub enum ImportFault {
    /// This is the first faulty step, counted from 0. Where there is no step, it is 0.
    Step { step: u64, cause: ResCause },
    /// Memory ran out.
    Memory,
}

impl From<AllocError> for ImportFault {
    ghost from_gives = { λ _ fault. fault ≡ import_fault.Memory };

    fn from(_error: AllocError) -> ImportFault {
        ImportFault::Memory
    }
}

/// Why a step derives nothing.
#[derive(Clone, Copy, PartialEq, Eq)]
pub(crate) enum StepFault {
    Cause(ResCause),
    Memory,
}

impl From<AllocError> for StepFault {
    ghost from_gives = { λ _ fault. fault ≡ step_fault.Memory };

    fn from(_error: AllocError) -> StepFault {
        StepFault::Memory
    }
}
