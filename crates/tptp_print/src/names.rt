//! Texts of names and variables.
ghost use Rattle.std.specs.Prelude.{◌≡◌, ◌++◌, OnOk};
ghost use Rattle.std.specs.List.{list_all};
ghost use Rattle.fol.specs.Formed.{is_word_byte as is_in_word};
ghost use Rattle.tptp_print.specs.Canonical.{is_lower_word as is_word_text, escaped, quoted, name_text, numbered_text, variable_text};

use fol::Var;
use std::alloc::{AllocError, Global};

fn is_word_byte(byte: u8) -> bool
    ensures { result ≡ is_in_word byte }
{
    byte.is_ascii_alphanumeric() || byte == b'_'
}

fn are_word_bytes(text: &[u8]) -> bool
    ensures { result ≡ list_all is_in_word text.now }
{
    text.iter().all(|byte| is_word_byte(*byte))
}

fn is_lower_word(text: &[u8]) -> bool
    ensures { result ≡ is_word_text text.now }
{
    match text {
        [] => false,
        [first, rest @ ..] => first.is_ascii_lowercase() && are_word_bytes(rest),
    }
}

/// A byte of a name in quotes: a quote and a backslash have a backslash before them.
fn push_escaped(out: &mut Vec<u8>, byte: u8) -> Result<(), AllocError>
    ensures { OnOk result (out.new.items ≡ out.old.items ++ escaped byte) }
{
    if byte == b'\'' || byte == b'\\' {
        out.push(b'\\')?;
    }
    out.push(byte)?;
    Ok(())
}

fn push_quoted(out: &mut Vec<u8>, name: &[u8]) -> Result<(), AllocError>
    ensures { OnOk result (out.new.items ≡ out.old.items ++ quoted name.now) }
{
    out.push(b'\'')?;
    for byte in name {
        push_escaped(out, *byte)?;
    }
    out.push(b'\'')?;
    Ok(())
}

/// A symbol's name, in quotes where it isn't a lower-case word.
pub fn push_name(out: &mut Vec<u8>, name: &[u8]) -> Result<(), AllocError>
    ensures { OnOk result (out.new.items ≡ out.old.items ++ name_text name.now) }
{
    if is_lower_word(name) {
        out.extend_from_slice(name)
    } else {
        push_quoted(out, name)
    }
}

/// The numbered variable of this number.
pub fn push_numbered(out: &mut Vec<u8>, alloc: Global, number: u64) -> Result<(), AllocError>
    ensures { OnOk result (out.new.items ≡ out.old.items ++ numbered_text number) }
{
    let digits = number.to_string(alloc)?;
    out.push(b'V')?;
    out.extend_from_slice(digits.as_bytes())
}

pub fn push_variable(out: &mut Vec<u8>, alloc: Global, var: &Var) -> Result<(), AllocError>
    ensures { OnOk result (out.new.items ≡ out.old.items ++ variable_text var.now) }
{
    match var {
        Var::Word(text) => out.extend_from_slice(text.as_bytes()),
        Var::Num(number) => push_numbered(out, alloc, *number),
    }
}
