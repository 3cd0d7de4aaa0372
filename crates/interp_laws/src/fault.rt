//! Why there is no interpolation.
ghost use Rattle.std.specs.Prelude.{◌≡◌};
ghost use Rattle.interp_laws.specs.declared.fault.InterpFault.TheVariants.{Memory as NoMemory};

use fol::Formula;
use lk_rules::Side;
use std::alloc::AllocError;

/// Why there is no interpolation.
#[derive(Drop)]
pub enum InterpFault {
    /// The proof has a cut. The number is the place of the first one in the list of its steps.
    Cut(u64),
    /// The first formula of the end sequent, left before right, in which a predicate symbol has a body.
    Defined { formula: Formula, side: Side },
    /// The two parts don't make up the end sequent: the first formula that stands on a side of just one of the end sequent and the union of
    /// the parts.
    Partition { formula: Formula, side: Side },
    /// The proof's tree has more nodes than the budget allows.
    Budget,
    /// Memory ran out.
    Memory,
}

impl From<AllocError> for InterpFault {
    ghost from_gives = { λ _ fault. fault ≡ NoMemory };

    fn from(_error: AllocError) -> InterpFault {
        InterpFault::Memory
    }
}
