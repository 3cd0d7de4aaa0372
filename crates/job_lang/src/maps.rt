//! Reading maps from variables to terms.
ghost use Rattle.std.specs.Prelude.{◌≡◌, IfOk, Some};
ghost use Rattle.std.specs.FinMap as fin;
ghost use Rattle.fol.specs.Formed.{IsFormedTerm};
ghost use Rattle.substitution.specs.Image.{IsFormedMap};
ghost use Rattle.tptp_tokens.specs.declared.tokens.TextFault.{TextFault as Fault};
ghost use Rattle.line_values.specs.View.{view, members_view};
ghost use Rattle.job_words.specs.declared.causes.JobCause.TheVariants.{Field as FieldCause, Formula as FormulaCause};
ghost use Rattle.job_lang.specs.Fields.{IsCause, Gives};
ghost use Rattle.job_lang.specs.Maps.{member_path as path_of_member, binding_of as binding_data, map_of as map_data, map_at as map_member};

use crate::places::{Place, field_path};
use crate::reading::{ReadError, field_fault};
use fol::{Term, Var};
use job_words::{JobCause, Utf8Text};
use line_values::{Value, in_order};
use std::alloc::{AllocError, Global};
use std::marker::Model;
use substitution::Subst;
use tptp_read::{TextError, read_term};
use tptp_tokens::{TextFault, read_variable};

/// A finite map from variables to well-formed terms.
#[derive(Drop)]
pub struct FormedMap {
    map: Subst,
}

impl Model for FormedMap {
    ghost use Rattle.std.specs.FinMap as fin;
    ghost use Rattle.substitution.specs.Image.{IsFormedMap};
    ghost use Rattle.substitution.specs.Maps.{Map, coded_map};

    ghost Value = { Map };

    ghost coded = { coded_map };

    ghost view = { λ m. m.map };

    ghost invariant = { λ m. IsFormedMap (fin.get m.map) };
}

impl FormedMap {
    /// The map, whose terms have to be well formed.
    pub fn from_subst(map: Subst) -> FormedMap
        requires { IsFormedMap (fin.get map) }
        ensures { result ≡ map }
    {
        FormedMap { map }
    }

    /// The map.
    pub fn as_subst(&self) -> &Subst
        ensures map { result.now ≡ self.now }
        ensures formed { IsFormedMap (fin.get result.now) }
    {
        &self.map
    }

    /// The map as one of its own.
    pub fn into_subst(self) -> Subst
        ensures map { result ≡ self }
        ensures formed { IsFormedMap (fin.get result) }
    {
        let FormedMap { map } = self;
        map
    }
}

/// The path of an object's member, by its name.
fn member_path(alloc: Global, place: Place, key: &str, name: &str) -> Result<Utf8Text, AllocError>
    ensures { IfOk result (λ p. p ≡ path_of_member place key.now name.now) }
{
    let object = field_path(alloc, place, key, None)?;
    let object = object.as_str();
    Ok(Utf8Text::from_string(format!(in alloc; "{object}/{name}")?))
}

/// A member of an object that is of the wrong form.
fn member_fault(alloc: Global, place: Place, key: &str, name: &str) -> ReadError
    ensures { IsCause result (FieldCause (path_of_member place key.now name.now)) }
{
    match member_path(alloc, place, key, name) {
        Ok(path) => ReadError::Fault(JobCause::Field(path)),
        Err(_) => ReadError::Memory,
    }
}

/// A fault of the text that a member of an object is.
fn member_text_fault(
    alloc: Global,
    place: Place,
    key: &str,
    name: &str,
    fault: TextFault,
) -> ReadError
    ensures { IsCause result (FormulaCause (path_of_member place key.now name.now) fault) }
{
    match member_path(alloc, place, key, name) {
        Ok(field) => ReadError::Fault(JobCause::Formula { field, fault }),
        Err(_) => ReadError::Memory,
    }
}

/// A variable and its term, as a member of an object. No text of a line is as long as the reader's bound of 2^32 bytes, since no line is.
#[tactic(auto, using(crate::proofs::Given::cause_given))]
fn binding_of(
    alloc: Global,
    name: &str,
    value: &Value<'_>,
    place: Place,
) -> Result<(Var, Term), ReadError>
    ensures value { Gives (λ b. b) result (binding_data place name.now (view value.now)) }
    ensures formed { IfOk result (λ b. IsFormedTerm b.1) }
{
    let var = match read_variable(alloc, name.as_bytes())? {
        Some(var) => var,
        None => return Err(field_fault(alloc, place, "map", None)),
    };
    let text = match value.as_str() {
        Some(text) => text,
        None => return Err(member_fault(alloc, place, "map", name)),
    };
    if text.len() >= 1 << 32 {
        return Err(ReadError::Memory);
    }
    match read_term(alloc, text.as_bytes()) {
        Ok(term) => Ok((var, term)),
        Err(TextError::Memory) => Err(ReadError::Memory),
        Err(TextError::Text(fault)) => Err(member_text_fault(alloc, place, "map", name, fault)),
    }
}

fn map_of<'a>(
    alloc: Global,
    members: &Vec<(&'a str, Value<'a>)>,
    place: Place,
) -> Result<FormedMap, ReadError>
    ensures { Gives (λ m. m) result (map_data place (members_view members.now.items) fin.empty) }
{
    let ordered = in_order(alloc, members)?;
    let mut map = Subst::new(alloc);
    for (name, value) in ordered.iter() {
        let (var, term) = binding_of(alloc, *name, *value, place)?;
        map.set(var, term)?;
    }
    Ok(FormedMap { map })
}

/// The member `map`: an object from variables to the texts of terms, read in rising order of the variables' names.
#[tactic(auto, using(crate::proofs::Given::cause_given))]
pub fn map_at(alloc: Global, value: &Value<'_>, place: Place) -> Result<FormedMap, ReadError>
    ensures { Gives (λ m. m) result (map_member place (view value.now)) }
{
    match value.get("map") {
        Some(member) => match member.as_object() {
            Some(members) => map_of(alloc, members, place),
            None => Err(field_fault(alloc, place, "map", None)),
        },
        None => Err(field_fault(alloc, place, "map", None)),
    }
}
