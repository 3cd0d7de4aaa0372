//! Why a text is no problem.
ghost use Rattle.std.specs.Prelude.{◌≡◌};
ghost use Rattle.tptp_problem.specs.declared.errors.ReadError.TheVariants.{Memory as ReadMemory};

use std::alloc::{AllocError, AllocFailed};
use tptp_tokens::TextKind;

/// What is wrong at the first faulty place of a text.
#[derive(Clone, Copy, PartialEq, Eq)]
pub enum ProblemKind {
    /// What can be wrong in any text of formulas.
    Text(TextKind),
    /// The word `include` at the front of an entry. No file is read.
    Include,
    /// Another word than `fof`, `cnf` and `include` there.
    Language,
    /// The name of an entry that an earlier entry has.
    NameTwice,
    /// A role that the language of the entry doesn't have.
    Role,
    /// The tokens up to this one begin no clause, or the text ends within one.
    Clause,
}

/// Why a text isn't read.
#[derive(Clone, Copy, PartialEq, Eq)]
pub enum ProblemError {
    /// The first faulty place, a byte counted from 0 or the text's length, and what is wrong there.
    At { at: u64, kind: ProblemKind },
    Memory,
}

/// A fault, by how many bytes of the text are left from its place on.
#[derive(Clone, Copy)]
pub struct Fault {
    pub left: usize,
    pub kind: ProblemKind,
}

/// Why a part of a text isn't read.
#[derive(Clone, Copy)]
pub enum ReadError {
    Memory,
    Fault(Fault),
}

impl From<AllocError> for ReadError {
    ghost from_gives = { λ _ e. e ≡ ReadMemory };

    fn from(_error: AllocError) -> ReadError {
        ReadError::Memory
    }
}

impl<T: Drop> From<AllocFailed<T>> for ReadError {
    ghost from_gives = { λ _ e. e ≡ ReadMemory };

    fn from(_error: AllocFailed<T>) -> ReadError {
        ReadError::Memory
    }
}
