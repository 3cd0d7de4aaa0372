//! Words, names in quotes, and comments to the end of a line.
ghost use Rattle.std.specs.Prelude.{◌≡◌, ◌<◌, ◌≤◌, ◌^◌, ◌∷◌, suc, [], false, take, length, IfOk};
ghost use Rattle.std.specs.Char.{is_ascii_uppercase};
ghost use Rattle.fol.specs.Formed.{is_word_byte as is_in_word};
ghost use Rattle.fol.specs.Numbered.{number_of_text};
ghost use Rattle.tptp_tokens.specs.declared.tokens.Token.TheVariants.{Name, Variable};
ghost use Rattle.tptp_tokens.specs.declared.tokens.Scan.TheVariants.{Found};
ghost use Rattle.tptp_tokens.specs.Lexer.{front_length, is_in_line, word_at, word_length, variable_of, defined, quoted, quoted_name, IsSized};

use crate::pool::Pool;
use crate::tokens::{Scan, TextKind, Token};
use fol::{Text, Var, numbered};
use std::alloc::{AllocError, Global};

fn is_word_byte(byte: u8) -> bool
    ensures { result ≡ is_in_word byte }
{
    byte.is_ascii_alphanumeric() || byte == b'_'
}

// How many letters, digits and `_` stand at the front.
fn word_bytes(bytes: &[u8]) -> usize
    ensures value { result ≡ front_length is_in_word bytes.now }
    ensures bound { result ≤ length bytes.now }
{
    let mut count = 0;
    for byte in bytes {
        if !is_word_byte(*byte) {
            return count;
        }
        count += 1;
    }
    count
}

/// The length of a comment to the end of the line; `rest` stands behind its `%`.
pub fn line_length(rest: &[u8]) -> usize
    ensures value { result ≡ suc (front_length is_in_line rest.now) }
    ensures bound { result ≤ suc (length rest.now) }
{
    let mut count = 1;
    for byte in rest {
        if *byte == b'\n' {
            return count;
        }
        count += 1;
    }
    count
}

// The word of this first byte, and its length.
fn scan_word(
    alloc: Global,
    pool: &mut Pool,
    first: u8,
    rest: &[u8],
) -> Result<(Text, usize), AllocError>
    ensures word { IfOk result (λ found. found.0 ≡ word_at first rest.now) }
    ensures length { IfOk result (λ found. found.1 ≡ word_length rest.now) }
    ensures bound { IfOk result (λ found. found.1 ≤ suc (length rest.now)) }
{
    let count = word_bytes(rest);
    let word = pool.text(alloc, first, &rest[..count])?;
    Ok((word, count + 1))
}

/// The name that a lower word is.
pub fn scan_name(alloc: Global, pool: &mut Pool, first: u8, rest: &[u8]) -> Result<Scan, AllocError>
    ensures value { IfOk result (λ s. s ≡ Found (Name (word_at first rest.now)) (word_length rest.now)) }
    ensures sized { IfOk result (λ s. IsSized s (suc (length rest.now))) }
{
    let (word, count) = scan_word(alloc, pool, first, rest)?;
    Ok(Scan::Found(Token::Name(word), count))
}

/// The variable that a word with a capital letter is.
pub fn scan_variable(
    alloc: Global,
    pool: &mut Pool,
    first: u8,
    rest: &[u8],
) -> Result<Scan, AllocError>
    ensures value { IfOk result (λ s. s ≡ Found (Variable (variable_of (word_at first rest.now) (number_of_text (word_at first rest.now)))) (word_length rest.now)) }
    ensures sized { IfOk result (λ s. IsSized s (suc (length rest.now))) }
{
    let (word, count) = scan_word(alloc, pool, first, rest)?;
    let variable = match numbered(word.as_bytes()) {
        Some(number) => Var::Num(number),
        None => Var::Word(word),
    };
    Ok(Scan::Found(Token::Variable(variable), count))
}

/// `$true` and `$false`; `rest` stands behind the `$`.
pub fn scan_defined(rest: &[u8]) -> Scan
    ensures value { result ≡ defined (take (front_length is_in_word rest.now) rest.now) (word_length rest.now) }
    ensures sized { IsSized result (suc (length rest.now)) }
{
    let count = word_bytes(rest);
    let word = &rest[..count];
    if word == b"true".as_slice() {
        Scan::Found(Token::Truth(true), count + 1)
    } else if word == b"false".as_slice() {
        Scan::Found(Token::Truth(false), count + 1)
    } else {
        Scan::Wrong(0, TextKind::DefinedWord)
    }
}

/// The name in quotes; `rest` stands behind the opening quote.
pub fn scan_quoted(alloc: Global, rest: &[u8]) -> Result<Scan, AllocError>
    ensures value { IfOk result (λ s. s ≡ quoted [] false 1 rest.now) }
    ensures sized { IfOk result (λ s. IsSized s (suc (length rest.now))) }
{
    let mut name = Vec::new(alloc);
    let mut escaping = false;
    for (passed, byte) in rest.iter().enumerate() {
        match *byte {
            b'\'' | b'\\' if escaping => {
                name.push(*byte)?;
                escaping = false;
            }
            _ if escaping => return Ok(Scan::Wrong(passed, TextKind::Token)),
            b'\'' => return close_quote(alloc, name, passed + 1),
            b'\\' => escaping = true,
            b' '..=b'~' => name.push(*byte)?,
            _ => return Ok(Scan::Wrong(passed + 1, TextKind::Token)),
        }
    }
    Ok(Scan::Wrong(0, TextKind::OpenQuote))
}

// `passed` bytes stand before the closing quote, the opening one included.
fn close_quote(alloc: Global, name: Vec<u8>, passed: usize) -> Result<Scan, AllocError>
    requires { passed < 2 ^ 63 }
    ensures value { IfOk result (λ s. s ≡ quoted_name name.items passed) }
    ensures sized { IfOk result (λ s. IsSized s (suc passed)) }
{
    if name.is_empty() {
        return Ok(Scan::Wrong(0, TextKind::Token));
    }
    Ok(Scan::Found(Token::Name(Text::from_vec(alloc, name)?), passed + 1))
}
