//! Values from texts, and texts of values.
ghost use Rattle.std.specs.Prelude.{IfOk};
ghost use Rattle.fol.specs.Formed.{IsFormed, IsFormedTerm};

use fol::{Formula, Term, Text, Var, well_formed, well_formed_term};
use std::alloc::{AllocError, Global};
use tptp_print::{print_formula, print_term};
use tptp_read::{TextError, read_formula, read_term};
use tptp_tokens::read_variable;

// The longest text of a test, in bytes.
const LONGEST: usize = 1000000;

/// The formula of a text.
pub fn formula_of(alloc: Global, text: &[u8]) -> Result<Formula, TextError>
    ensures { IfOk result IsFormed }
{
    if text.len() > LONGEST {
        return Err(TextError::Memory);
    }
    read_formula(alloc, text)
}

/// The term of a text.
pub fn term_of(alloc: Global, text: &[u8]) -> Result<Term, TextError>
    ensures { IfOk result IsFormedTerm }
{
    if text.len() > LONGEST {
        return Err(TextError::Memory);
    }
    read_term(alloc, text)
}

/// The variable of a text.
pub fn variable_of(alloc: Global, text: &str) -> Result<Var, TextError> {
    match read_variable(alloc, text.as_bytes())? {
        Some(var) => Ok(var),
        None => Err(TextError::Memory),
    }
}

/// The variables of a list with spaces between them.
pub fn variables_of(alloc: Global, list: &str) -> Result<Vec<Var>, TextError> {
    let mut vars = Vec::new(alloc);
    for name in list.split_whitespace() {
        vars.push(variable_of(alloc, name)?)
            .map_err(AllocError::from)?;
    }
    Ok(vars)
}

/// The canonical text of a formula that is well formed.
pub fn shown(alloc: Global, formula: &Formula) -> Result<Text, AllocError> {
    if well_formed(formula) {
        print_formula(alloc, formula)
    } else {
        text(alloc, "not well formed")
    }
}

/// The canonical text of a term that is well formed.
pub fn shown_term(alloc: Global, term: &Term) -> Result<Text, AllocError> {
    if well_formed_term(term) {
        print_term(alloc, term)
    } else {
        text(alloc, "not well formed")
    }
}

/// A text of these letters.
pub fn text(alloc: Global, letters: &str) -> Result<Text, AllocError> {
    Text::from_vec(alloc, Vec::from_slice(alloc, letters.as_bytes())?)
}

/// The text of a variable, behind a space where others come before it.
pub fn push_variable(alloc: Global, out: &mut Vec<u8>, var: &Var) -> Result<(), AllocError> {
    if !out.is_empty() {
        out.push(b' ')?;
    }
    match var {
        Var::Word(word) => out.extend_from_slice(word.as_bytes()),
        Var::Num(number) => out.extend_from_slice(format!(in alloc; "V{number}")?.as_bytes()),
    }
}

/// The texts of variables, with spaces between them.
pub fn shown_variables(alloc: Global, vars: &[Var]) -> Result<Vec<u8>, AllocError> {
    let mut out = Vec::new(alloc);
    for var in vars {
        push_variable(alloc, &mut out, var)?;
    }
    Ok(out)
}
