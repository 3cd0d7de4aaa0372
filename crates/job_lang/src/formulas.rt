//! Reading formulas, and lists of them as sides of a sequent.
ghost use Rattle.std.specs.Prelude.{◌≡◌, map, IfOk, Some, None};
ghost use Rattle.std.specs.List.{All};
ghost use Rattle.fol.specs.Formed.{IsFormed, IsFormedTerm, IsFormedVar};
ghost use Rattle.line_values.specs.View.{view};
ghost use Rattle.job_lang.specs.Fields.{Gives, each};
ghost use Rattle.job_lang.specs.Formulas.{formula_text, formula_at as formula_member, formula_of as formula_element, side_of, side_at as side_member, term_at as term_member, variable_at as variable_member};

use crate::places::Place;
use crate::reading::{ReadError, field_fault, items_at, text_at, text_fault};
use fol::{Formula, Term, Var};
use line_values::Value;
use lk_rules::Formulas;
use std::alloc::Global;
use text_tables::FormulaTexts;
use tptp_read::{TextError, read_term};
use tptp_tokens::read_variable;

/// The formula of a text. No text of a line is as long as the reader's bound of 2^32 bytes, since no line is.
#[tactic(auto, using(crate::proofs::Given::cause_given))]
pub fn read_text(
    alloc: Global,
    texts: &mut FormulaTexts,
    text: &str,
    place: Place,
    key: &str,
    index: Option<usize>,
) -> Result<Formula, ReadError>
    ensures value { Gives (λ f. f) result (formula_text place key.now index text.now) }
    ensures formed { IfOk result IsFormed }
{
    if text.len() >= 1 << 32 {
        return Err(ReadError::Memory);
    }
    match texts.read(alloc, text) {
        Ok(formula) => Ok(formula),
        Err(TextError::Memory) => Err(ReadError::Memory),
        Err(TextError::Text(fault)) => Err(text_fault(alloc, place, key, index, fault)),
    }
}

/// The member that is a formula.
pub fn formula_at(
    alloc: Global,
    texts: &mut FormulaTexts,
    value: &Value<'_>,
    place: Place,
    key: &str,
) -> Result<Formula, ReadError>
    ensures value { Gives (λ f. f) result (formula_member place key.now (view value.now)) }
    ensures formed { IfOk result IsFormed }
{
    let text = text_at(alloc, value, place, key)?;
    read_text(alloc, texts, text, place, key, None)
}

/// The member that is a term.
#[tactic(auto, using(crate::proofs::Given::cause_given))]
pub fn term_at(alloc: Global, value: &Value<'_>, place: Place, key: &str) -> Result<Term, ReadError>
    ensures value { Gives (λ t. t) result (term_member place key.now (view value.now)) }
    ensures formed { IfOk result IsFormedTerm }
{
    let text = text_at(alloc, value, place, key)?;
    if text.len() >= 1 << 32 {
        return Err(ReadError::Memory);
    }
    match read_term(alloc, text.as_bytes()) {
        Ok(term) => Ok(term),
        Err(TextError::Memory) => Err(ReadError::Memory),
        Err(TextError::Text(fault)) => Err(text_fault(alloc, place, key, None, fault)),
    }
}

/// The member that is a variable: one token with nothing before or behind it.
#[tactic(auto, using(crate::proofs::Given::cause_given))]
pub fn variable_at(
    alloc: Global,
    value: &Value<'_>,
    place: Place,
    key: &str,
) -> Result<Var, ReadError>
    ensures value { Gives (λ v. v) result (variable_member place key.now (view value.now)) }
    ensures formed { IfOk result IsFormedVar }
{
    let text = text_at(alloc, value, place, key)?;
    match read_variable(alloc, text.as_bytes())? {
        Some(var) => Ok(var),
        None => Err(field_fault(alloc, place, key, None)),
    }
}

/// The formula that an element of a list is.
#[tactic(auto, using(crate::proofs::Given::cause_given))]
fn formula_of(
    alloc: Global,
    texts: &mut FormulaTexts,
    value: &Value<'_>,
    place: Place,
    key: &str,
    index: usize,
) -> Result<Formula, ReadError>
    ensures value { Gives (λ f. f) result (formula_element place key.now index (view value.now)) }
    ensures formed { IfOk result IsFormed }
{
    match value.as_str() {
        Some(text) => read_text(alloc, texts, text, place, key, Some(index)),
        None => Err(field_fault(alloc, place, key, Some(index))),
    }
}

/// The formulas that the elements of a list are.
fn each_formula(
    alloc: Global,
    texts: &mut FormulaTexts,
    values: &[Value<'_>],
    place: Place,
    key: &str,
) -> Result<Vec<Formula>, ReadError>
    ensures value { Gives (λ v. v.items) result (each (formula_element place key.now) 0 (map view values.now)) }
    ensures formed { IfOk result (λ v. All IsFormed v.items) }
{
    let mut formulas = Vec::new(alloc);
    for (index, value) in values.iter().enumerate() {
        let formula = formula_of(alloc, texts, value, place, key, index)?;
        formulas.push(formula)?;
    }
    Ok(formulas)
}

fn formulas_of(
    alloc: Global,
    texts: &mut FormulaTexts,
    values: &[Value<'_>],
    place: Place,
    key: &str,
) -> Result<Formulas, ReadError>
    ensures { Gives (λ s. s) result (side_of place key.now (map view values.now)) }
{
    let formulas = each_formula(alloc, texts, values, place, key)?;
    Ok(Formulas::from_vec(alloc, formulas)?)
}

/// The member that is a side of a sequent: a list of formulas. One that is written twice is in it once.
#[tactic(auto, using(crate::proofs::Given::cause_given))]
pub fn side_at(
    alloc: Global,
    texts: &mut FormulaTexts,
    value: &Value<'_>,
    place: Place,
    key: &str,
) -> Result<Formulas, ReadError>
    ensures { Gives (λ s. s) result (side_member place key.now (view value.now)) }
{
    let Some(values) = items_at(value, key) else {
        return Err(field_fault(alloc, place, key, None));
    };
    formulas_of(alloc, texts, values, place, key)
}
