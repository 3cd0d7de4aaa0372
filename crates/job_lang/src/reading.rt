//! Reading the fields of a job's JSON value.
ghost use Rattle.std.specs.Prelude.{◌≡◌, option_map, map, Some, None};
ghost use Rattle.line_values.specs.View.{view};
ghost use Rattle.tptp_tokens.specs.declared.tokens.TextFault.{TextFault as Fault};
ghost use Rattle.job_words.specs.declared.causes.JobCause.TheVariants.{Field as FieldCause, Formula as FormulaCause};
ghost use Rattle.job_lang.specs.Places.{path};
ghost use Rattle.job_lang.specs.Fields.{IsCause, Gives, text_at as text_member, items_at as items_member};

use crate::places::{Place, field_path};
use job_words::{JobCause, Utf8Text};
use line_values::Value;
use std::alloc::{AllocError, AllocFailed, Global};
use tptp_tokens::TextFault;

/// Why a field isn't read.
#[derive(Drop)]
pub enum ReadError {
    Memory,
    Fault(JobCause),
}

impl From<AllocError> for ReadError {
    ghost use Rattle.std.specs.Prelude.{◌≡◌};
    ghost use Rattle.job_lang.specs.declared.reading.ReadError.{ReadError};
    ghost use Rattle.job_lang.specs.declared.reading.ReadError.TheVariants as errors;

    ghost from_gives = { λ _ error. error ≡ errors.Memory };

    fn from(_error: AllocError) -> ReadError {
        ReadError::Memory
    }
}

impl<T: Drop> From<AllocFailed<T>> for ReadError {
    ghost use Rattle.std.specs.Prelude.{◌≡◌};
    ghost use Rattle.job_lang.specs.declared.reading.ReadError.{ReadError};
    ghost use Rattle.job_lang.specs.declared.reading.ReadError.TheVariants as errors;

    ghost from_gives = { λ _ error. error ≡ errors.Memory };

    fn from(_error: AllocFailed<T>) -> ReadError {
        ReadError::Memory
    }
}

/// A field that is missing or of the wrong form.
pub fn field_fault(alloc: Global, place: Place, key: &str, index: Option<usize>) -> ReadError
    ensures { IsCause result (FieldCause (path place key.now index)) }
{
    match field_path(alloc, place, key, index) {
        Ok(path) => ReadError::Fault(JobCause::Field(path)),
        Err(_) => ReadError::Memory,
    }
}

/// A fault of the text of a formula or a term in a field.
pub fn text_fault(
    alloc: Global,
    place: Place,
    key: &str,
    index: Option<usize>,
    fault: TextFault,
) -> ReadError
    ensures { IsCause result (FormulaCause (path place key.now index) fault) }
{
    match field_path(alloc, place, key, index) {
        Ok(field) => ReadError::Fault(JobCause::Formula { field, fault }),
        Err(_) => ReadError::Memory,
    }
}

/// The member that is a text.
#[tactic(auto, using(crate::proofs::Given::cause_given))]
pub fn text_at<'v, 'a>(
    alloc: Global,
    value: &'v Value<'a>,
    place: Place,
    key: &str,
) -> Result<&'v str, ReadError>
    ensures { Gives (λ s. s.now) result (text_member place key.now (view value.now)) }
{
    match value.get(key).and_then(Value::as_str) {
        Some(text) => Ok(text),
        None => Err(field_fault(alloc, place, key, None)),
    }
}

/// The member that is a text, as a text of its own.
pub fn written_at(
    alloc: Global,
    value: &Value<'_>,
    place: Place,
    key: &str,
) -> Result<Utf8Text, ReadError>
    ensures { Gives (λ t. t) result (text_member place key.now (view value.now)) }
{
    let text = text_at(alloc, value, place, key)?;
    Ok(Utf8Text::from_string(String::from_str(alloc, text)?))
}

/// The items of the member, where it is a list.
pub fn items_at<'v, 'a>(value: &'v Value<'a>, key: &str) -> Option<&'v [Value<'a>]>
    ensures { option_map (λ s. map view s.now) result ≡ items_member key.now (view value.now) }
{
    match value.get(key) {
        Some(member) => match member.as_array() {
            Some(items) => Some(items.as_slice()),
            None => None,
        },
        None => None,
    }
}
