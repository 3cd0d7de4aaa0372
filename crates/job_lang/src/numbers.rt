//! Reading whole numbers, and lists of them.
ghost use Rattle.std.specs.Prelude.{◌≡◌, true, map, IfOk};
ghost use Rattle.line_values.specs.View.{view};
ghost use Rattle.job_lang.specs.Fields.{Gives, each};
ghost use Rattle.job_lang.specs.Numbers.{number_at as number_member, number_of as number_data, numbers_at as numbers_member, pair_of as pair_data, pair_at as pair_member, is_within, limited_at as limited_member};

use crate::places::Place;
use crate::reading::{ReadError, field_fault, items_at};
use line_values::Value;
use lk_rules::Numbers;
use std::alloc::Global;

/// The member that is a whole number.
#[tactic(auto, using(crate::proofs::Given::cause_given))]
pub fn number_at(
    alloc: Global,
    value: &Value<'_>,
    place: Place,
    key: &str,
) -> Result<u64, ReadError>
    ensures { Gives (λ n. n) result (number_member place key.now (view value.now)) }
{
    match value.get(key) {
        Some(member) => match member.as_u64() {
            Some(number) => Ok(number),
            None => Err(field_fault(alloc, place, key, None)),
        },
        None => Err(field_fault(alloc, place, key, None)),
    }
}

/// The whole number that an element of a list is.
#[tactic(auto, using(crate::proofs::Given::cause_given))]
fn number_of(
    alloc: Global,
    value: &Value<'_>,
    place: Place,
    key: &str,
    index: usize,
) -> Result<u64, ReadError>
    ensures { Gives (λ n. n) result (number_data place key.now index (view value.now)) }
{
    match value.as_u64() {
        Some(number) => Ok(number),
        None => Err(field_fault(alloc, place, key, Some(index))),
    }
}

/// The whole numbers that the elements of a list are.
fn numbers_of(
    alloc: Global,
    values: &[Value<'_>],
    place: Place,
    key: &str,
) -> Result<Vec<u64>, ReadError>
    ensures { Gives (λ v. v.items) result (each (number_data place key.now) 0 (map view values.now)) }
{
    let mut numbers = Vec::new(alloc);
    for (index, value) in values.iter().enumerate() {
        let number = number_of(alloc, value, place, key, index)?;
        numbers.push(number)?;
    }
    Ok(numbers)
}

/// The member that is a list of whole numbers.
#[tactic(auto, using(crate::proofs::Given::cause_given))]
pub fn numbers_at(
    alloc: Global,
    value: &Value<'_>,
    place: Place,
    key: &str,
) -> Result<Numbers, ReadError>
    ensures { Gives (λ n. n) result (numbers_member place key.now (view value.now)) }
{
    let Some(values) = items_at(value, key) else {
        return Err(field_fault(alloc, place, key, None));
    };
    let numbers = numbers_of(alloc, values, place, key)?;
    Ok(Numbers::from_vec(numbers))
}

#[tactic(auto, using(crate::proofs::Given::cause_given))]
fn pair_of(
    alloc: Global,
    values: &[Value<'_>],
    place: Place,
    key: &str,
) -> Result<(u64, u64), ReadError>
    ensures { Gives (λ p. p) result (pair_data place key.now (map view values.now)) }
{
    match values {
        [first, second] => {
            let first = number_of(alloc, first, place, key, 0)?;
            let second = number_of(alloc, second, place, key, 1)?;
            Ok((first, second))
        }
        _ => Err(field_fault(alloc, place, key, None)),
    }
}

/// The two whole numbers that the member is.
#[tactic(auto, using(crate::proofs::Given::cause_given))]
pub fn pair_at(
    alloc: Global,
    value: &Value<'_>,
    place: Place,
    key: &str,
) -> Result<(u64, u64), ReadError>
    ensures { Gives (λ p. p) result (pair_member place key.now (view value.now)) }
{
    let Some(values) = items_at(value, key) else {
        return Err(field_fault(alloc, place, key, None));
    };
    pair_of(alloc, values, place, key)
}

/// The member of the job that is a whole number from `least` to `most`, or `usual` where the job has no such member.
#[tactic(auto, using(crate::proofs::Given::cause_given))]
pub fn limited_at(
    alloc: Global,
    value: &Value<'_>,
    key: &str,
    least: u64,
    most: u64,
    usual: u64,
) -> Result<u64, ReadError>
    requires { is_within least most usual ≡ true }
    ensures number { Gives (λ n. n) result (limited_member key.now least most usual (view value.now)) }
    ensures within { IfOk result (λ n. is_within least most n ≡ true) }
{
    let number = match value.get(key) {
        Some(member) => member.as_u64(),
        None => return Ok(usual),
    };
    match number {
        Some(number) if number >= least && number <= most => Ok(number),
        _ => Err(field_fault(alloc, Place::Top, key, None)),
    }
}
