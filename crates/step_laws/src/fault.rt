//! Why a list of steps has no tree.
ghost use Rattle.std.specs.Prelude.{◌≡◌};

use lk_rules::RuleFault;
use std::alloc::AllocError;

/// What is wrong with a step: the first fault in this order.
#[derive(Clone, Copy, PartialEq, Eq, Debug)]
pub enum StepCause {
    /// A premise is not the number of an earlier step.
    Reference,
    /// The fault of the step's inference.
    Rule(RuleFault),
}

/// Why a list of steps has no tree.
#[derive(Clone, Copy, PartialEq, Eq, Debug)]
pub enum AdmitFault {
    /// There is no step.
    Empty,
    /// This is the first faulty step, counted from 0, with its first fault.
    Step { step: u64, cause: StepCause },
    /// Memory ran out.
    Memory,
}

impl From<AllocError> for AdmitFault {
    fn from(_error: AllocError) -> AdmitFault
        ensures { result ≡ AdmitFault.Memory }
    {
        AdmitFault::Memory
    }
}
