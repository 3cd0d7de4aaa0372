//! Why no proof is built.
ghost use Rattle.std.specs.Prelude.{◌≡◌};
ghost use Rattle.building_laws.specs.declared.fault.BuildFault.TheVariants.{Memory as NoMemory};

use std::alloc::AllocError;
use thiserror::Error;

/// Why no proof is built.
#[derive(Debug, Drop, Error)]
pub enum BuildFault {
    /// The proof has more inferences than the budget allows.
    #[error("out of budget")]
    Budget,
    /// There was no memory.
    #[error("out of memory")]
    Memory,
}

impl From<AllocError> for BuildFault {
    ghost from_gives = { λ _ fault. fault ≡ NoMemory };

    fn from(_error: AllocError) -> BuildFault {
        BuildFault::Memory
    }
}
