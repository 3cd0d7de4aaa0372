//! Reading what a definition is of, and which definitions are used.
ghost use Rattle.std.specs.Prelude.{◌≡◌, true, length, map, [], IfOk, IfSome};
ghost use Rattle.std.specs.List.{All};
ghost use Rattle.fol.specs.Formed.{is_name, IsFormedVar};
ghost use Rattle.tptp_tokens.specs.Lexer.{scanned};
ghost use Rattle.serde_json.specs.Find.{as_str};
ghost use Rattle.line_values.specs.View.{view};
ghost use Rattle.job_lang.specs.Fields.{Gives, each};
ghost use Rattle.job_lang.specs.Definitions.{whole_name as name_of_text, name_at as name_member, whole_of, variables_behind, variables_at as variables_member, used_name as name_element, using_at as using_member};

use crate::places::Place;
use crate::reading::{ReadError, field_fault, items_at, text_at};
use fol::{Text, Var};
use job_words::{FormedVars, SymbolName, Utf8Text, Utf8Texts};
use line_values::Value;
use std::alloc::{AllocError, Global};
use std::collections::BTreeMap;
use tptp_tokens::{Pool, Scan, Token, read_variable, scan};

// The name that the whole text is: one token, with nothing before or behind it.
fn whole_name(alloc: Global, text: &[u8]) -> Result<Option<Text>, AllocError>
    ensures value { IfOk result (λ name. name ≡ name_of_text (scanned text.now) (length text.now)) }
    ensures formed { IfOk result (λ name. IfSome name (λ x. is_name x ≡ true)) }
{
    let mut pool = Pool::for_text(alloc, 0)?;
    match scan(alloc, &mut pool, text)? {
        Scan::Found(Token::Name(name), length) if length == text.len() => Ok(Some(name)),
        _ => Ok(None),
    }
}

/// The member that is the name of a symbol.
#[tactic(auto, using(crate::proofs::Given::cause_given))]
pub fn name_at(alloc: Global, value: &Value<'_>) -> Result<SymbolName, ReadError>
    ensures { Gives (λ n. n) result (name_member (view value.now)) }
{
    let text = text_at(alloc, value, Place::Top, "symbol")?;
    match whole_name(alloc, text.as_bytes())? {
        Some(name) => Ok(SymbolName::new(name)),
        None => Err(field_fault(alloc, Place::Top, "symbol", None)),
    }
}

// The variable that an element of a list is.
fn whole_variable(alloc: Global, value: &Value<'_>) -> Result<Option<Var>, AllocError>
    ensures value { IfOk result (λ v. v ≡ whole_of (as_str (view value.now))) }
    ensures formed { IfOk result (λ v. IfSome v IsFormedVar) }
{
    match value.as_str() {
        Some(text) => read_variable(alloc, text.as_bytes()),
        None => Ok(None),
    }
}

// The variables that the elements of a list are, each another one.
fn variables_of(alloc: Global, values: &[Value<'_>]) -> Result<FormedVars, ReadError>
    ensures { Gives (λ v. v) result (variables_behind [] 0 (map view values.now)) }
{
    let mut vars = Vec::new(alloc);
    let mut seen = BTreeMap::new(alloc);
    for (index, value) in values.iter().enumerate() {
        let Some(var) = whole_variable(alloc, value)? else {
            return Err(field_fault(alloc, Place::Top, "vars", Some(index)));
        };
        if seen.insert(var.copy()?, ())?.is_some() {
            return Err(field_fault(alloc, Place::Top, "vars", Some(index)));
        }
        vars.push(var)?;
    }
    Ok(FormedVars::from_vec(vars))
}

/// The member that is a list of variables of which no two are the same.
#[tactic(auto, using(crate::proofs::Given::cause_given))]
pub fn variables_at(alloc: Global, value: &Value<'_>) -> Result<FormedVars, ReadError>
    ensures { Gives (λ v. v) result (variables_member (view value.now)) }
{
    let Some(values) = items_at(value, "vars") else {
        return Err(field_fault(alloc, Place::Top, "vars", None));
    };
    variables_of(alloc, values)
}

// The name that an element of the list of names is.
#[tactic(auto, using(crate::proofs::Given::cause_given))]
fn used_name(alloc: Global, value: &Value<'_>, index: usize) -> Result<Utf8Text, ReadError>
    ensures { Gives (λ t. t) result (name_element index (view value.now)) }
{
    match value.as_str() {
        Some(text) => Ok(Utf8Text::from_string(String::from_str(alloc, text)?)),
        None => Err(field_fault(alloc, Place::Top, "using", Some(index))),
    }
}

// The names that the elements of a list are.
fn used_names(alloc: Global, values: &[Value<'_>]) -> Result<Utf8Texts, ReadError>
    ensures { Gives (λ t. t) result (each name_element 0 (map view values.now)) }
{
    let mut names = Vec::new(alloc);
    for (index, value) in values.iter().enumerate() {
        let name = used_name(alloc, value, index)?;
        names.push(name)?;
    }
    Ok(Utf8Texts::from_vec(names))
}

/// The member that is a list of names of jobs: none where the job has no such member.
#[tactic(auto, using(crate::proofs::Given::cause_given))]
pub fn using_at(alloc: Global, value: &Value<'_>) -> Result<Utf8Texts, ReadError>
    ensures { Gives (λ t. t) result (using_member (view value.now)) }
{
    match value.get("using") {
        Some(member) => match member.as_array() {
            Some(values) => used_names(alloc, values.as_slice()),
            None => Err(field_fault(alloc, Place::Top, "using", None)),
        },
        None => Ok(Utf8Texts::from_vec(Vec::new(alloc))),
    }
}
