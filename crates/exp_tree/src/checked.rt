//! Expansion proofs.
ghost use Rattle.std.specs.Prelude.{◌≡◌, IfOk};
ghost use Rattle.expansion_laws.specs.Proofs.{shallow_sequent, IsExpansionProof};
ghost use Rattle.exp_tree.specs.Reads.{expansion_of};

use crate::sequents::ExpSequent;
use std::alloc::{AllocError, Global};
use std::marker::Model;

/// Expansion trees that are an expansion proof of the sequent of their formulas.
#[derive(Drop)]
pub struct CheckedExp {
    exps: ExpSequent,
}

impl Model for CheckedExp {
    ghost use Rattle.expansion_laws.specs.Proofs.{shallow_sequent, IsExpansionProof};
    ghost use Rattle.exp_tree.specs.declared.sequents.ExpSequent.{ExpSequent as Trees};
    ghost use Rattle.exp_tree.specs.contracts.sequents.ExpSequent as trees;
    ghost use Rattle.exp_tree.specs.Reads.{expansion_of};

    ghost Value = { Trees };

    ghost coded = { trees.the_row.coded };

    ghost view = { λ c. c.exps };

    ghost invariant = { λ c. IsExpansionProof (expansion_of c.exps) (shallow_sequent (expansion_of c.exps)) };
}

impl CheckedExp {
    /// The expansion proof that these trees are.
    pub fn new(exps: ExpSequent) -> CheckedExp
        requires { IsExpansionProof (expansion_of exps) (shallow_sequent (expansion_of exps)) }
        ensures { result ≡ exps }
    {
        CheckedExp { exps }
    }

    /// The trees.
    pub fn tree(&self) -> &ExpSequent
        ensures trees { result.now ≡ self.now }
        ensures proof { IsExpansionProof (expansion_of self.now) (shallow_sequent (expansion_of self.now)) }
    {
        &self.exps
    }

    /// The same expansion proof, whose trees are shared.
    pub fn copy(&self, alloc: Global) -> Result<CheckedExp, AllocError>
        ensures { IfOk result (λ copy. copy ≡ self.now) }
    {
        let exps = self.tree().copy(alloc)?;
        Ok(CheckedExp::new(exps))
    }
}
