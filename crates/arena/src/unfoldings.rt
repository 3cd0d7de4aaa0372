//! Unfoldings of atoms whose predicate symbols have bodies.
ghost use Rattle.std.specs.Prelude.{◌≡◌, IfOk, IfSome, option_map};
ghost use Rattle.substitution.specs.Unfolding.{unf};
ghost use Rattle.arena_cells.specs.Standing.{Extends, formula_at, IsFormulaAt};

use crate::arena::Arena;
use std::alloc::{AllocError, Global};
use substitution::unfold;

impl Arena {
    /// The number of the unfolding of the formula at a number: of an atom whose predicate symbol has a body. Other formulas have none, which
    /// takes one look. An unfolding is made each time, and comes in like any formula.
    #[tactic(auto, using(arena_cells::proofs::Facts::places))]
    pub fn unfolding(&mut self, alloc: Global, formula: u32) -> Result<Option<u32>, AllocError>
        requires { IsFormulaAt self.old formula }
        ensures there { IfOk result (λ found. IfSome found (IsFormulaAt self.new)) }
        ensures unfolding { IfOk result (λ found. option_map (formula_at self.new) found ≡ unf (formula_at self.old formula)) }
        ensures grown { Extends self.old self.new }
    {
        let Some(unfolding) = unfold(alloc, self.formula(formula))? else {
            return Ok(None);
        };
        Ok(Some(self.import_formula(alloc, &unfolding)?))
    }
}
