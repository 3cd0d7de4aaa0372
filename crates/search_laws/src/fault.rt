//! Why a search found no proof.
ghost use Rattle.std.specs.Prelude.{◌≡◌};
ghost use Rattle.search_laws.specs.declared.fault.SearchFault.TheVariants.{Memory as NoMemory};

use lk_rules::Formulas;
use std::alloc::AllocError;

/// Why a search found no proof.
#[derive(Drop)]
pub enum SearchFault {
    /// The sequent is false where just these atoms are true.
    Falsified(Formulas),
    /// The search visits more sequents than the budget allows.
    Budget,
    /// Memory ran out.
    Memory,
}

impl From<AllocError> for SearchFault {
    ghost from_gives = { λ _ fault. fault ≡ NoMemory };

    fn from(_error: AllocError) -> SearchFault {
        SearchFault::Memory
    }
}
