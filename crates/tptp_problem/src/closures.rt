//! Universal closures.
ghost use Rattle.std.specs.Prelude.{◌≡◌, IfOk};
ghost use Rattle.fol.specs.Formed.{IsFormed};
ghost use Rattle.tptp_problem.specs.Closures.{closure_of};

use fol::Formula;
use refutations::own_variables;
use std::alloc::{AllocError, Global};
use substitution::close_all;

/// The universal closure of a formula. The variable that occurs first is the outermost.
pub fn closure(alloc: Global, formula: &Formula) -> Result<Formula, AllocError>
    ensures value { IfOk result (λ f. f ≡ closure_of formula.now) }
    ensures formed { IsFormed formula.now → IfOk result IsFormed }
{
    let vars = own_variables(alloc, formula)?;
    close_all(alloc, &vars, formula)
}
