//! Reading sequents.
ghost use Rattle.std.specs.Prelude.{◌≡◌};
ghost use Rattle.line_values.specs.View.{view};
ghost use Rattle.job_lang.specs.Fields.{Gives};
ghost use Rattle.job_lang.specs.Sequents.{sequent_at as sequent_members, part_of as part_data, part_at as part_member};

use crate::formulas::side_at;
use crate::places::Place;
use crate::reading::{ReadError, field_fault};
use line_values::Value;
use lk_rules::Sequent;
use std::alloc::Global;
use text_tables::FormulaTexts;

/// The members that are the sides of a sequent.
pub fn sequent_at(
    alloc: Global,
    texts: &mut FormulaTexts,
    value: &Value<'_>,
    place: Place,
) -> Result<Sequent, ReadError>
    ensures { Gives (λ s. s) result (sequent_members place (view value.now)) }
{
    let left = side_at(alloc, texts, value, place, "left")?;
    let right = side_at(alloc, texts, value, place, "right")?;
    Ok(Sequent { left, right })
}

#[tactic(auto, using(crate::proofs::Given::cause_given))]
fn part_of(
    alloc: Global,
    texts: &mut FormulaTexts,
    value: &Value<'_>,
    place: Place,
    key: &str,
) -> Result<Sequent, ReadError>
    ensures { Gives (λ s. s) result (part_data place key.now (view value.now)) }
{
    match value.as_object() {
        Some(_) => sequent_at(alloc, texts, value, place),
        None => Err(field_fault(alloc, Place::Top, key, None)),
    }
}

/// The member that is an object with the sides of a sequent, whose own members stand at the place.
#[tactic(auto, using(crate::proofs::Given::cause_given))]
pub fn part_at(
    alloc: Global,
    texts: &mut FormulaTexts,
    value: &Value<'_>,
    place: Place,
    key: &str,
) -> Result<Sequent, ReadError>
    ensures { Gives (λ s. s) result (part_member place key.now (view value.now)) }
{
    match value.get(key) {
        Some(member) => part_of(alloc, texts, member, place, key),
        None => Err(field_fault(alloc, Place::Top, key, None)),
    }
}
