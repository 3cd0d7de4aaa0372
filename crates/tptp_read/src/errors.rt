//! Why a text, or a token of it, isn't read.
ghost use Rattle.std.specs.Prelude.{◌≡◌};
ghost use Rattle.tptp_read.specs.declared.errors.StepError.TheVariants.{Memory as StepMemory};
ghost use Rattle.tptp_read.specs.declared.errors.TextError.TheVariants.{Memory as TextMemory};

use std::alloc::{AllocError, AllocFailed};
use tptp_tokens::{TextFault, TextKind};

/// Why a token can't be read.
#[derive(Clone, Copy, PartialEq, Eq, Debug)]
pub enum StepError {
    Memory,
    Kind(TextKind),
}

/// Why a text can't be read.
#[derive(Clone, Copy, PartialEq, Eq, Debug)]
pub enum TextError {
    Memory,
    Text(TextFault),
}

impl From<AllocError> for StepError {
    ghost from_gives = { λ _ e. e ≡ StepMemory };

    fn from(_error: AllocError) -> StepError {
        StepError::Memory
    }
}

impl<T: Drop> From<AllocFailed<T>> for StepError {
    ghost from_gives = { λ _ e. e ≡ StepMemory };

    fn from(_error: AllocFailed<T>) -> StepError {
        StepError::Memory
    }
}

impl From<AllocError> for TextError {
    ghost from_gives = { λ _ e. e ≡ TextMemory };

    fn from(_error: AllocError) -> TextError {
        TextError::Memory
    }
}
