//! Reading the steps of a refutation.
ghost use Rattle.std.specs.Prelude.{◌≡◌, map, IfOk, is_some};
ghost use Rattle.serde_json.specs.Find.{get};
ghost use Rattle.line_values.specs.View.{view};
ghost use Rattle.refutations.specs.Refutations.{IsFormedStep, AreFormedSteps};
ghost use Rattle.job_lang.specs.Fields.{Gives};
ghost use Rattle.job_lang.specs.Resolutions.{input_step as input_data, subst_step as subst_data, resolve_step as resolve_data, res_step_of as step_data, res_step_at as step_element, res_steps_of as steps_data, res_steps_at as steps_member};

use crate::formulas::formula_at;
use crate::maps::map_at;
use crate::numbers::{number_at, pair_at};
use crate::places::Place;
use crate::reading::{ReadError, field_fault, items_at};
use line_values::Value;
use refutations::ResStep;
use std::alloc::Global;
use std::marker::Model;
use text_tables::FormulaTexts;

/// The steps of a refutation, each of which names a map or an atom that is well formed, where it names one.
#[derive(Drop)]
pub struct ResSteps {
    items: Vec<ResStep>,
}

impl Model for ResSteps {
    ghost use Rattle.std.specs.Prelude.{List};
    ghost use Rattle.refutations.specs.declared.step.ResStep.{ResStep};
    ghost use Rattle.refutations.specs.Refutations.{AreFormedSteps};

    ghost Value = { List ResStep };

    ghost use Rattle.std.specs.Coded.{codes};
    ghost use Rattle.refutations.specs.contracts.step.ResStep as step;

    ghost coded = { Prim.hlevel (codes, step.the_row.coded) };

    ghost view = { λ s. s.items.items };

    ghost invariant = { λ s. AreFormedSteps s.items.items };
}

impl ResSteps {
    /// The list of these steps, each of which names a well-formed map or atom, where it names one.
    pub fn from_vec(items: Vec<ResStep>) -> ResSteps
        requires { AreFormedSteps items.items }
        ensures { result ≡ items.items }
    {
        ResSteps { items }
    }

    /// The steps, in order.
    pub fn as_slice(&self) -> &[ResStep]
        ensures steps { result.now ≡ self.now }
        ensures formed { AreFormedSteps result.now }
    {
        self.items.as_slice()
    }
}

fn has_member(value: &Value<'_>, key: &str) -> bool
    ensures { result ≡ is_some (get key.now (view value.now)) }
{
    value.get(key).is_some()
}

fn input_step(alloc: Global, value: &Value<'_>, place: Place) -> Result<ResStep, ReadError>
    ensures value { Gives (λ s. s) result (input_data place (view value.now)) }
    ensures formed { IfOk result IsFormedStep }
{
    let clause = number_at(alloc, value, place, "input")?;
    Ok(ResStep::Input(clause))
}

fn subst_step(alloc: Global, value: &Value<'_>, place: Place) -> Result<ResStep, ReadError>
    ensures value { Gives (λ s. s) result (subst_data place (view value.now)) }
    ensures formed { IfOk result IsFormedStep }
{
    let step = number_at(alloc, value, place, "subst")?;
    let map = map_at(alloc, value, place)?;
    Ok(ResStep::Subst(step, map.into_subst()))
}

fn resolve_step(
    alloc: Global,
    texts: &mut FormulaTexts,
    value: &Value<'_>,
    place: Place,
) -> Result<ResStep, ReadError>
    ensures value { Gives (λ s. s) result (resolve_data place (view value.now)) }
    ensures formed { IfOk result IsFormedStep }
{
    let (positive, negative) = pair_at(alloc, value, place, "resolve")?;
    let atom = formula_at(alloc, texts, value, place, "atom")?;
    Ok(ResStep::Resolve {
        positive,
        negative,
        atom,
    })
}

/// The members of a step, by the first of its keys that is present.
#[tactic(auto, using(crate::proofs::Given::cause_given))]
fn members_of_step(
    alloc: Global,
    texts: &mut FormulaTexts,
    value: &Value<'_>,
    index: usize,
) -> Result<ResStep, ReadError>
    ensures value { Gives (λ s. s) result (step_data index (view value.now)) }
    ensures formed { IfOk result IsFormedStep }
{
    let place = Place::Step(index);
    if has_member(value, "input") {
        return input_step(alloc, value, place);
    }
    if has_member(value, "subst") {
        return subst_step(alloc, value, place);
    }
    if has_member(value, "resolve") {
        return resolve_step(alloc, texts, value, place);
    }
    Err(field_fault(alloc, Place::Top, "steps", Some(index)))
}

#[tactic(auto, using(crate::proofs::Given::cause_given))]
fn step_at(
    alloc: Global,
    texts: &mut FormulaTexts,
    value: &Value<'_>,
    index: usize,
) -> Result<ResStep, ReadError>
    ensures value { Gives (λ s. s) result (step_element index (view value.now)) }
    ensures formed { IfOk result IsFormedStep }
{
    match value.as_object() {
        Some(_) => members_of_step(alloc, texts, value, index),
        None => Err(field_fault(alloc, Place::Top, "steps", Some(index))),
    }
}

fn steps_of(
    alloc: Global,
    texts: &mut FormulaTexts,
    values: &[Value<'_>],
) -> Result<ResSteps, ReadError>
    ensures { Gives (λ s. s) result (steps_data (map view values.now)) }
{
    let mut items = Vec::new(alloc);
    for (index, value) in values.iter().enumerate() {
        let step = step_at(alloc, texts, value, index)?;
        items.push(step)?;
    }
    Ok(ResSteps { items })
}

/// The steps of the refutation.
#[tactic(auto, using(crate::proofs::Given::cause_given))]
pub fn res_steps_at(
    alloc: Global,
    texts: &mut FormulaTexts,
    value: &Value<'_>,
) -> Result<ResSteps, ReadError>
    ensures { Gives (λ s. s) result (steps_member (view value.now)) }
{
    let Some(values) = items_at(value, "steps") else {
        return Err(field_fault(alloc, Place::Top, "steps", None));
    };
    steps_of(alloc, texts, values)
}
