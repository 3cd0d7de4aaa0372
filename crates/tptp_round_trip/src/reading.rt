//! Printing and reading in a row.
ghost use Rattle.std.specs.Prelude.{◌≡◌, false, Ok, IfOk};
ghost use Rattle.fol.specs.Facts.{has_body};
ghost use Rattle.fol.specs.Formed.{IsFormed};
ghost use Rattle.tptp_read.specs.Given.{GivesText};
ghost use Rattle.tptp_round_trip.specs.Limits.{IsWithinLimits, AreNumbersInRange};

use fol::Formula;
use std::alloc::Global;
use tptp_print::print_formula;
use tptp_read::{TextError, read_formula};

/// What the canonical text of the formula means, or why it can't be read. A text of 2^32 bytes or more is refused as want of memory.
#[tactic(auto, using(crate::proofs::RoundTrip::back_same, crate::proofs::RoundTrip::back_read))]
pub fn read_back(alloc: Global, formula: &Formula) -> Result<Formula, TextError>
    requires { IsFormed formula.now }
    // It is never another formula, where no predicate symbol has a body.
    ensures same { has_body formula.now ≡ false → AreNumbersInRange formula.now → IfOk result (λ f. f ≡ formula.now) }
    // Within the limits it is the formula, unless memory runs out.
    ensures read { has_body formula.now ≡ false → IsWithinLimits formula.now → AreNumbersInRange formula.now → GivesText (λ f. f) result (Ok formula.now) }
{
    let text = print_formula(alloc, formula)?;
    let bytes = text.as_bytes();
    if bytes.len() > u32::MAX as usize {
        return Err(TextError::Memory);
    }
    read_formula(alloc, bytes)
}
