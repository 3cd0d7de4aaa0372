//! Why expansion trees are no expansion proof.
ghost use Rattle.std.specs.Prelude.{◌≡◌};
ghost use Rattle.expansion_laws.specs.declared.fault.ExpFault.TheVariants.{Memory as NoMemory};

use fol::Var;
use lk_rules::Formulas;
use refutations::VarList;
use std::alloc::AllocError;

/// Why expansion trees are no expansion proof.
#[derive(Drop)]
pub enum ExpFault {
    /// The least variable of two strong quantifiers of the unfolded trees.
    EigenTwice(Var),
    /// The least variable of a strong quantifier that is free in the sequent of the trees' formulas.
    EigenFree(Var),
    /// Variables of strong quantifiers, each of which has to be there before the next one, and the last before the first.
    Cycle(VarList),
    /// What the trees stand for is false where just these atoms are true.
    Falsified(Formulas),
    /// The search for a proof of what the trees stand for visits more sequents than the budget allows.
    Budget,
    /// Memory ran out.
    Memory,
}

impl From<AllocError> for ExpFault {
    ghost from_gives = { λ _ fault. fault ≡ NoMemory };

    fn from(_error: AllocError) -> ExpFault {
        ExpFault::Memory
    }
}
