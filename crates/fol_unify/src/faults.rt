//! Why there is no unifier, or none was made.
ghost use Rattle.std.specs.Prelude.{◌≡◌};
ghost use Rattle.fol_unify.specs.declared.faults.UnifyFault.TheVariants.{Memory};

use std::alloc::{AllocError, AllocFailed};

/// Why equations were not solved: no map makes their sides equal, or memory is wanting. A solution some term of which would have more than 2^26
/// nodes as a tree is want of memory.
#[derive(Clone, Copy)]
pub enum UnifyFault {
    NoUnifier,
    Memory,
}

impl From<AllocError> for UnifyFault {
    ghost from_gives = { λ _ e. e ≡ Memory };

    fn from(_error: AllocError) -> UnifyFault {
        UnifyFault::Memory
    }
}

impl<T: Drop> From<AllocFailed<T>> for UnifyFault {
    ghost from_gives = { λ _ e. e ≡ Memory };

    fn from(_error: AllocFailed<T>) -> UnifyFault {
        UnifyFault::Memory
    }
}
