//! Why there are no Herbrand instances, and why no cut is introduced.
ghost use Rattle.std.specs.Prelude.{◌≡◌};
ghost use Rattle.introduction_laws.specs.declared.fault.HerbrandFault.TheVariants.{Memory as NoMemory};
ghost use Rattle.introduction_laws.specs.declared.fault.IntroFault.TheVariants.{Memory as NoRoom};
ghost use Rattle.introduction_laws.specs.Faults.{intro_fault};

use fol::Formula;
use lk_rules::Side;
use std::alloc::AllocError;

/// Why a proof has no Herbrand instances.
#[derive(Drop)]
pub enum HerbrandFault {
    /// The proof has a cut. The number is the place of the first one in the list of its steps.
    Cut(u64),
    /// The first formula of the end sequent, left before right, that isn't weak quantifiers over a formula without quantifiers and without
    /// predicate symbols that have a body.
    NotPrenex { formula: Formula, side: Side },
    /// The proof's tree has more nodes than the budget allows.
    Budget,
    /// Memory ran out.
    Memory,
}

/// Why no cut is introduced into a proof.
#[derive(Drop)]
pub enum IntroFault {
    /// The proof has a cut. The number is the place of the first one in the list of its steps.
    Cut(u64),
    /// The first formula of the end sequent, left before right, that isn't weak quantifiers over a formula without quantifiers and without
    /// predicate symbols that have a body.
    NotPrenex { formula: Formula, side: Side },
    /// The proof's tree has more nodes than the budget allows, or the search for one of the new parts visits more sequents.
    Budget,
    /// The formulas with quantifiers have more than 48 tuples: this many, at most 2^64 - 1.
    TooMany(u64),
    /// Memory ran out.
    Memory,
}

impl From<AllocError> for HerbrandFault {
    ghost from_gives = { λ _ fault. fault ≡ NoMemory };

    fn from(_error: AllocError) -> HerbrandFault {
        HerbrandFault::Memory
    }
}

impl From<AllocError> for IntroFault {
    ghost from_gives = { λ _ fault. fault ≡ NoRoom };

    fn from(_error: AllocError) -> IntroFault {
        IntroFault::Memory
    }
}

impl From<HerbrandFault> for IntroFault {
    ghost from_gives = { λ error fault. fault ≡ intro_fault error };

    fn from(error: HerbrandFault) -> IntroFault {
        match error {
            HerbrandFault::Cut(place) => IntroFault::Cut(place),
            HerbrandFault::NotPrenex { formula, side } => IntroFault::NotPrenex { formula, side },
            HerbrandFault::Budget => IntroFault::Budget,
            HerbrandFault::Memory => IntroFault::Memory,
        }
    }
}
