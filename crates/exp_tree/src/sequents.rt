//! Expansion trees for the two sides of a sequent.
ghost use Rattle.std.specs.Prelude.{◌≡◌, true, IfOk};
ghost use Rattle.std.specs.List.{All};
ghost use Rattle.expansion_laws.specs.Building.{is_built};
ghost use Rattle.exp_tree.specs.Sequents.{AreArranged};

use crate::expansion::Exp;
use std::alloc::{AllocError, Global};
use std::marker::Model;

/// Expansion trees by rising formula, of which no two have the same.
#[derive(Drop)]
pub struct Exps {
    items: Vec<Exp>,
}

impl Model for Exps {
    ghost use Rattle.std.specs.Prelude.{List};
    ghost use Rattle.std.specs.Coded.{coded_list};
    ghost use Rattle.expansion_laws.specs.Expansions.{Exp as Tree};
    ghost use Rattle.exp_tree.specs.Codes.{coded_exp};
    ghost use Rattle.exp_tree.specs.Sequents.{AreArranged};

    ghost Value = { List Tree };

    ghost coded = { coded_list coded_exp };

    ghost view = { λ a. a.items.items };

    ghost invariant = { λ a. AreArranged a.items.items };
}

impl Exps {
    /// The trees of a list whose formulas rise.
    pub fn from_vec(items: Vec<Exp>) -> Exps
        requires { AreArranged items.items }
        ensures { result ≡ items.items }
    {
        Exps { items }
    }

    /// The trees by rising formula.
    pub fn as_slice(&self) -> &[Exp]
        ensures trees { result.now ≡ self.now }
        ensures arranged { AreArranged self.now }
    {
        self.items.as_slice()
    }

    /// The same trees, which are shared.
    pub fn copy(&self, alloc: Global) -> Result<Exps, AllocError>
        ensures { IfOk result (λ copy. copy ≡ self.now) }
    {
        let mut items = Vec::with_capacity(alloc, self.as_slice().len())?;
        for tree in self.as_slice() {
            items.push(tree.copy()?)?;
        }
        Ok(Exps::from_vec(items))
    }
}

/// Expansion trees for the formulas of a sequent: for the antecedent on the left, and for the succedent on the right.
pub struct ExpSequent {
    pub left: Exps,
    pub right: Exps,
}

impl Drop for ExpSequent {
    fn drop(self) {
        let ExpSequent { left, right } = self;
        drop(left);
        drop(right);
    }
}

impl ExpSequent {
    /// Each tree is rightly built.
    #[tactic(auto, using(crate::proofs::Arranged::each_passes))]
    pub fn known(&self)
        ensures left { All (λ e. is_built e ≡ true) self.now.left }
        ensures right { All (λ e. is_built e ≡ true) self.now.right }
    {
        let _left = self.left.as_slice();
        let _right = self.right.as_slice();
    }

    /// The same trees, which are shared.
    pub fn copy(&self, alloc: Global) -> Result<ExpSequent, AllocError>
        ensures { IfOk result (λ copy. copy ≡ self.now) }
    {
        let left = self.left.copy(alloc)?;
        let right = self.right.copy(alloc)?;
        Ok(ExpSequent { left, right })
    }
}
