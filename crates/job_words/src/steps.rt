//! The steps of a proof and of a refutation.
ghost use Rattle.std.specs.Prelude.{◌≡◌, IfOk};
ghost use Rattle.std.specs.List.{All};
ghost use Rattle.lk_rules.specs.Rules.{IsFormedRule};
ghost use Rattle.job_words.specs.Refutations.{HaveFormedParts};

use lk_rules::Step;
use refutations::ResStep;
use std::alloc::{AllocError, Global};
use std::marker::Model;
use std::sync::Arc;

/// The steps of a proof, each of which names a rule with well-formed parts.
#[derive(Drop)]
pub struct Steps {
    items: Vec<Step>,
}

impl Model for Steps {
    ghost use Rattle.std.specs.Prelude.{List};
    ghost use Rattle.std.specs.List.{All};
    ghost use Rattle.lk_rules.specs.declared.rule.Step.{Step};
    ghost use Rattle.lk_rules.specs.Rules.{IsFormedRule};

    ghost Value = { List Step };

    ghost use Rattle.std.specs.Coded.{codes};
    ghost use Rattle.lk_rules.specs.contracts.rule.Step as step;

    ghost coded = { Prim.hlevel (codes, step.the_row.coded) };

    ghost view = { λ s. s.items.items };

    ghost invariant = { λ s. All (λ step. IsFormedRule step.rule) s.items.items };
}

impl Steps {
    /// The list of these steps, each of which names a rule with well-formed parts.
    pub fn from_vec(items: Vec<Step>) -> Steps
        requires { All (λ s. IsFormedRule s.rule) items.items }
        ensures { result ≡ items.items }
    {
        Steps { items }
    }

    /// The steps, in order.
    pub fn as_slice(&self) -> &[Step]
        ensures steps { result.now ≡ self.now }
        ensures formed { All (λ s. IsFormedRule s.rule) result.now }
    {
        self.items.as_slice()
    }

    /// The steps as a list of their own.
    pub fn into_vec(self) -> Vec<Step>
        ensures steps { result.items ≡ self }
        ensures formed { All (λ s. IsFormedRule s.rule) result.items }
    {
        let Steps { items } = self;
        items
    }
}

/// The steps of a refutation, each of which names a well-formed atom or a map of well-formed variables to well-formed terms, where it
/// names one. They cannot be changed, and are shared by their copies.
#[derive(Drop)]
pub struct RefutationSteps {
    items: Arc<Vec<ResStep>>,
}

impl Model for RefutationSteps {
    ghost use Rattle.std.specs.Prelude.{List};
    ghost use Rattle.refutations.specs.declared.step.ResStep.{ResStep};
    ghost use Rattle.job_words.specs.Refutations.{HaveFormedParts};

    ghost Value = { List ResStep };

    ghost use Rattle.std.specs.Coded.{codes};
    ghost use Rattle.refutations.specs.contracts.step.ResStep as step;

    ghost coded = { Prim.hlevel (codes, step.the_row.coded) };

    ghost view = { λ s. s.items.value.items };

    ghost invariant = { λ s. HaveFormedParts s.items.value.items };
}

impl RefutationSteps {
    /// The list of these steps, which are moved and not copied, and whose parts have to be well formed.
    pub fn from_vec(alloc: Global, items: Vec<ResStep>) -> Result<RefutationSteps, AllocError>
        requires { HaveFormedParts items.items }
        ensures { IfOk result (λ steps. steps ≡ items.items) }
    {
        let items = Arc::new(alloc, items)?;
        Ok(RefutationSteps { items })
    }

    /// The steps, in order.
    pub fn as_slice(&self) -> &[ResStep]
        ensures steps { result.now ≡ self.now }
        ensures formed { HaveFormedParts result.now }
    {
        self.items.as_slice()
    }

    /// The same steps, which are shared.
    pub fn copy(&self) -> Result<RefutationSteps, AllocError>
        ensures { IfOk result (λ copy. copy ≡ self.now) }
    {
        let items = Arc::try_clone(&self.items)?;
        Ok(RefutationSteps { items })
    }
}
