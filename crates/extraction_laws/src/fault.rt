//! Why no expansion is extracted.
ghost use Rattle.std.specs.Prelude.{◌≡◌};
ghost use Rattle.extraction_laws.specs.declared.fault.ExtractFault.TheVariants.{Memory as NoMemory};

use fol::Formula;
use lk_rules::Side;
use std::alloc::AllocError;

/// Why no expansion is extracted.
#[derive(Drop)]
pub enum ExtractFault {
    /// The proof has a cut. The number is the place of the first one in the list of its steps.
    Cut(u64),
    /// The first formula of the end sequent, left before right, in which a predicate symbol has a body.
    Defined { formula: Formula, side: Side },
    /// The proof's tree has more nodes than the budget allows.
    Budget,
    /// Memory ran out.
    Memory,
}

impl From<AllocError> for ExtractFault {
    ghost from_gives = { λ _ fault. fault ≡ NoMemory };

    fn from(_error: AllocError) -> ExtractFault {
        ExtractFault::Memory
    }
}
