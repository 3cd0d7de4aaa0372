//! Items: a formula with the tuples of its instances.
ghost use Rattle.std.specs.Prelude.{◌≡◌, ◌≤◌, ◌^◌, true, IfOk};
ghost use Rattle.std.specs.List.{All};
ghost use Rattle.fol.specs.Formed.{are_formed_terms_at, count_terms, IsFormed};
ghost use Rattle.fol.specs.Order.{terms_cmp};
ghost use Rattle.finite.specs.Finite as set;
ghost use Rattle.herbrand_laws.specs.Herbrand.{is_prenex, quantifiers};
ghost use Rattle.delta_table.specs.Items.{IsItem};

use crate::prefixes::prefix;
use crate::tuples::Tuples;
use fol::Formula;
use lk_rules::Side;
use std::alloc::{AllocError, Global};
use std::marker::Model;

/// A formula of one side of a sequent, and tuples of terms for its quantifiers. The formula is well formed: weak quantifiers, `All` on the
/// left and `Ex` on the right, over a formula without quantifiers. The tuples rise, are well formed, and have a term for each quantifier.
pub struct Item {
    pub side: Side,
    pub formula: Formula,
    pub tuples: Tuples,
}

impl Drop for Item {
    fn drop(self) {
        let Item {
            side: _,
            formula,
            tuples,
        } = self;
        drop(formula);
        drop(tuples);
    }
}

impl Model for Item {
    ghost use Rattle.herbrand_laws.specs.Herbrand.{Item as Meaning};
    ghost use Rattle.delta_table.specs.Items.{coded_item, IsItem};

    ghost Value = { Meaning };

    ghost coded = { coded_item };

    ghost view = { λ a. record { side = a.side; formula = a.formula; tuples = a.tuples } };

    ghost invariant = { λ a. IsItem (record { side = a.side; formula = a.formula; tuples = a.tuples }) };
}

impl Item {
    /// The item of these parts.
    pub fn new(side: Side, formula: Formula, tuples: Tuples) -> Item
        requires { IsItem (record { side = side; formula = formula; tuples = tuples }) }
        ensures { result ≡ record { side = side; formula = formula; tuples = tuples } }
    {
        Item {
            side,
            formula,
            tuples,
        }
    }

    /// The parts fit together.
    pub fn known(&self)
        ensures { IsItem self.now }
    {
        let _side = &self.side;
    }

    /// The side on which the formula stands.
    pub fn side(&self) -> Side
        ensures { result ≡ self.now.side }
    {
        self.side
    }

    /// The formula, which is well formed.
    pub fn formula(&self) -> &Formula
        ensures formula { result.now ≡ self.now.formula }
        ensures formed { IsFormed result.now }
        ensures prenex { is_prenex self.now.side result.now ≡ true }
    {
        &self.formula
    }

    /// The tuples, which are well formed and have a term for each quantifier of the formula.
    #[tactic(auto, using(crate::proofs::ItemFacts::formed_tuples, crate::proofs::ItemFacts::counted_tuples))]
    pub fn tuples(&self) -> &Tuples
        ensures tuples { result.now ≡ self.now.tuples }
        ensures formed { All (λ us. are_formed_terms_at 0 us ≡ true) self.now.tuples }
        ensures counted { All (λ us. count_terms us ≡ quantifiers self.now) self.now.tuples }
        ensures rises { set.IsRising terms_cmp self.now.tuples }
    {
        &self.tuples
    }

    /// The number of the formula's quantifiers.
    pub fn quantifiers(&self) -> u32
        ensures value { result ≡ quantifiers self.now }
        ensures within { result ≤ 2 ^ 26 }
    {
        prefix(self.side, &self.formula)
    }

    /// The same item, whose parts are shared.
    pub fn copy(&self, alloc: Global) -> Result<Item, AllocError>
        ensures { IfOk result (λ copy. copy ≡ self.now) }
    {
        let formula = self.formula.copy()?;
        let tuples = self.tuples.copy(alloc)?;
        Ok(Item {
            side: self.side,
            formula,
            tuples,
        })
    }
}
