//! Reading the steps of a proof.
ghost use Rattle.std.specs.Prelude.{◌≡◌, map, IfOk};
ghost use Rattle.std.specs.List.{All};
ghost use Rattle.lk_rules.specs.Rules.{IsFormedRule};
ghost use Rattle.line_values.specs.View.{view};
ghost use Rattle.job_lang.specs.Fields.{Gives};
ghost use Rattle.job_lang.specs.Steps.{step_of as step_data, step_at as step_element, steps_of as steps_data, steps_at as steps_member};

use crate::formulas::side_at;
use crate::numbers::numbers_at;
use crate::places::Place;
use crate::reading::{ReadError, field_fault, items_at};
use crate::rules::rule_of;
use job_words::Steps;
use line_values::Value;
use lk_rules::{Sequent, Step};
use std::alloc::Global;
use text_tables::FormulaTexts;

fn members_of_step(
    alloc: Global,
    texts: &mut FormulaTexts,
    value: &Value<'_>,
    place: Place,
) -> Result<Step, ReadError>
    ensures value { Gives (λ s. s) result (step_data place (view value.now)) }
    ensures formed { IfOk result (λ s. IsFormedRule s.rule) }
{
    let rule = rule_of(alloc, texts, value, place)?;
    let premises = numbers_at(alloc, value, place, "premises")?;
    let left = side_at(alloc, texts, value, place, "left")?;
    let right = side_at(alloc, texts, value, place, "right")?;
    Ok(Step {
        rule,
        premises,
        end: Sequent { left, right },
    })
}

#[tactic(auto, using(crate::proofs::Given::cause_given))]
fn step_at(
    alloc: Global,
    texts: &mut FormulaTexts,
    value: &Value<'_>,
    index: usize,
) -> Result<Step, ReadError>
    ensures value { Gives (λ s. s) result (step_element index (view value.now)) }
    ensures formed { IfOk result (λ s. IsFormedRule s.rule) }
{
    match value.as_object() {
        Some(_) => members_of_step(alloc, texts, value, Place::Step(index)),
        None => Err(field_fault(alloc, Place::Top, "steps", Some(index))),
    }
}

fn steps_of(
    alloc: Global,
    texts: &mut FormulaTexts,
    values: &[Value<'_>],
) -> Result<Steps, ReadError>
    ensures { Gives (λ s. s) result (steps_data (map view values.now)) }
{
    let mut items = Vec::new(alloc);
    for (index, value) in values.iter().enumerate() {
        let step = step_at(alloc, texts, value, index)?;
        items.push(step)?;
    }
    Ok(Steps::from_vec(items))
}

/// The steps of the job.
#[tactic(auto, using(crate::proofs::Given::cause_given))]
pub fn steps_at(
    alloc: Global,
    texts: &mut FormulaTexts,
    value: &Value<'_>,
) -> Result<Steps, ReadError>
    ensures { Gives (λ s. s) result (steps_member (view value.now)) }
{
    let Some(values) = items_at(value, "steps") else {
        return Err(field_fault(alloc, Place::Top, "steps", None));
    };
    steps_of(alloc, texts, values)
}
