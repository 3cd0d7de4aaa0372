//! Reading the rules with what they name.
ghost use Rattle.std.specs.Prelude.{◌≡◌, IfOk};
ghost use Rattle.fol.specs.Formed.{IsFormedTerm, IsFormedVar};
ghost use Rattle.lk_rules.specs.Rules.{IsFormedRule};
ghost use Rattle.line_values.specs.View.{view};
ghost use Rattle.job_lang.specs.Fields.{Gives};
ghost use Rattle.job_lang.specs.Formulas.{term_at as term_member, variable_at as variable_member};
ghost use Rattle.job_lang.specs.Rules.{rule_of_kind as rule_with, rule_of as rule_data};

use crate::formulas::{formula_at, term_at, variable_at};
use crate::places::Place;
use crate::reading::{ReadError, field_fault, text_at};
use job_words::RuleKind;
use line_values::Value;
use lk_rules::Rule;
use std::alloc::Global;
use text_tables::FormulaTexts;

// A rule of this kind with what it names.
fn rule_of_kind(
    alloc: Global,
    texts: &mut FormulaTexts,
    kind: RuleKind,
    value: &Value<'_>,
    place: Place,
) -> Result<Rule, ReadError>
    ensures value { Gives (λ r. r) result (rule_with place kind (view value.now)) }
    ensures formed { IfOk result IsFormedRule }
{
    match kind {
        RuleKind::TopR => return Ok(Rule::TopR),
        RuleKind::BotL => return Ok(Rule::BotL),
        RuleKind::Weak => return Ok(Rule::Weak),
        _ => {}
    }
    let main = formula_at(alloc, texts, value, place, "main")?;
    match kind {
        RuleKind::Ax => Ok(Rule::Ax(main)),
        RuleKind::NegL => Ok(Rule::NegL(main)),
        RuleKind::NegR => Ok(Rule::NegR(main)),
        RuleKind::AndL => Ok(Rule::AndL(main)),
        RuleKind::AndR => Ok(Rule::AndR(main)),
        RuleKind::OrL => Ok(Rule::OrL(main)),
        RuleKind::OrR => Ok(Rule::OrR(main)),
        RuleKind::ImpL => Ok(Rule::ImpL(main)),
        RuleKind::ImpR => Ok(Rule::ImpR(main)),
        RuleKind::DefL => Ok(Rule::DefL(main)),
        RuleKind::DefR => Ok(Rule::DefR(main)),
        RuleKind::Cut => Ok(Rule::Cut(main)),
        RuleKind::AllL => Ok(Rule::AllL(main, term_at(alloc, value, place, "term")?)),
        RuleKind::ExR => Ok(Rule::ExR(main, term_at(alloc, value, place, "term")?)),
        RuleKind::AllR => Ok(Rule::AllR(main, variable_at(alloc, value, place, "var")?)),
        RuleKind::ExL => Ok(Rule::ExL(main, variable_at(alloc, value, place, "var")?)),
        RuleKind::TopR | RuleKind::BotL | RuleKind::Weak => unreachable!(),
    }
}

/// The members that give a step's rule, with what it names.
#[tactic(auto, using(crate::proofs::Given::cause_given))]
pub fn rule_of(
    alloc: Global,
    texts: &mut FormulaTexts,
    value: &Value<'_>,
    place: Place,
) -> Result<Rule, ReadError>
    ensures value { Gives (λ r. r) result (rule_data place (view value.now)) }
    ensures formed { IfOk result IsFormedRule }
{
    let name = text_at(alloc, value, place, "rule")?;
    match RuleKind::named(name) {
        Some(kind) => rule_of_kind(alloc, texts, kind, value, place),
        None => Err(field_fault(alloc, place, "rule", None)),
    }
}
