//! Why there is no definition.
ghost use Rattle.std.specs.Prelude.{◌≡◌};
ghost use Rattle.def_laws.specs.declared.fault.DefFault.TheVariants.{Memory as NoMemory};

use fol::Var;
use std::alloc::AllocError;

/// Why a predicate symbol can't stand for a formula.
#[derive(Drop)]
pub enum DefFault {
    /// The least variable that is free in the formula and isn't one of the symbol's arguments.
    Free(Var),
    /// With all defined symbols unfolded the formula has more than 10,000 nodes.
    Large,
    /// Memory ran out.
    Memory,
}

impl From<AllocError> for DefFault {
    ghost from_gives = { λ _ fault. fault ≡ NoMemory };

    fn from(_error: AllocError) -> DefFault {
        DefFault::Memory
    }
}
