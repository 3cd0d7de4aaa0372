//! What a search answers.
ghost use Rattle.std.specs.Prelude.{◌≡◌};

use ground_laws::SatStep;
use lk_rules::Formulas;
use std::marker::Model;

/// The steps of a refutation.
#[derive(Drop)]
pub struct SatSteps {
    items: Vec<SatStep>,
}

impl Model for SatSteps {
    ghost use Rattle.std.specs.Prelude.{List};
    ghost use Rattle.std.specs.Coded.{coded_list};
    ghost use Rattle.ground_laws.specs.declared.step.SatStep.{SatStep as Inference};
    ghost use Rattle.ground_laws.specs.contracts.step.SatStep as inference;

    ghost Value = { List Inference };

    ghost coded = { coded_list inference.the_row.coded };

    ghost view = { λ s. s.items.items };
}

impl SatSteps {
    /// The list of these steps, which are moved and not copied.
    pub fn from_vec(items: Vec<SatStep>) -> SatSteps
        ensures { result ≡ items.items }
    {
        SatSteps { items }
    }

    /// The steps, in order.
    pub fn as_slice(&self) -> &[SatStep]
        ensures { result.now ≡ self.now }
    {
        self.items.as_slice()
    }

    /// The steps themselves, which are moved and not copied.
    pub fn into_vec(self) -> Vec<SatStep>
        ensures { result.items ≡ self }
    {
        let SatSteps { items } = self;
        items
    }
}

/// A model or a refutation of ground clauses.
#[derive(Drop)]
pub enum SatAnswer {
    /// The true atoms of a model.
    Model(Formulas),
    /// Steps that derive the empty clause.
    Refutation(SatSteps),
}
