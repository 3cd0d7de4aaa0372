//! The front of a text.
ghost use Rattle.std.specs.Prelude.{◌≡◌, ◌+◌, suc, ◌∷◌, length, IfOk, IfSome};
ghost use Rattle.fol.specs.Formed.{IsFormedVar};
ghost use Rattle.tptp_tokens.specs.Formed.{IsFormedScan};
ghost use Rattle.tptp_tokens.specs.Lexer.{whole_variable, scanned, scanned_from, single, symbol, IsSized};

use crate::pool::Pool;
use crate::symbols::{longer_symbol, single_symbol};
use crate::tokens::{Scan, TextKind, Token};
use crate::words::{line_length, scan_defined, scan_name, scan_quoted, scan_variable};
use fol::Var;
use std::alloc::{AllocError, Global};

/// What stands at the front of the bytes: the longest possible token, or white space or a comment before it. A digit is a fault here,
/// though an entry of a problem may have digits as its name. The pool may have any names.
pub fn scan(alloc: Global, pool: &mut Pool, bytes: &[u8]) -> Result<Scan, AllocError>
    ensures value { IfOk result (λ s. s ≡ scanned bytes.now) }
    ensures sized { IfOk result (λ s. IsSized s (length bytes.now)) }
    // A name is one or more printable bytes, and a variable is well formed.
    ensures formed { IfOk result IsFormedScan }
{
    scan_front(alloc, pool, bytes)
}

/// The variable that the whole text is: one token, with nothing before or behind it.
pub fn read_variable(alloc: Global, text: &[u8]) -> Result<Option<Var>, AllocError>
    ensures value { IfOk result (λ v. v ≡ whole_variable (scanned text.now) (length text.now)) }
    ensures formed { IfOk result (λ v. IfSome v IsFormedVar) }
{
    variable_of_text(alloc, text)
}

fn variable_of_text(alloc: Global, text: &[u8]) -> Result<Option<Var>, AllocError>
    ensures { IfOk result (λ v. v ≡ whole_variable (scanned text.now) (length text.now)) }
{
    let mut pool = Pool::for_text(alloc, 0)?;
    match scan(alloc, &mut pool, text)? {
        Scan::Found(Token::Variable(var), length) if length == text.len() => Ok(Some(var)),
        _ => Ok(None),
    }
}

#[tactic(auto, unfolding(crate::specs::Lexer::scanned))]
fn scan_front(alloc: Global, pool: &mut Pool, bytes: &[u8]) -> Result<Scan, AllocError>
    ensures value { IfOk result (λ s. s ≡ scanned bytes.now) }
    ensures sized { IfOk result (λ s. IsSized s (length bytes.now)) }
{
    match bytes {
        [] => Ok(Scan::End),
        [first, rest @ ..] => scan_from(alloc, pool, *first, rest),
    }
}

fn scan_from(alloc: Global, pool: &mut Pool, first: u8, rest: &[u8]) -> Result<Scan, AllocError>
    ensures value { IfOk result (λ s. s ≡ scanned_from first rest.now) }
    ensures sized { IfOk result (λ s. IsSized s (suc (length rest.now))) }
{
    match first {
        b' ' | b'\t' | b'\n' | b'\r' => Ok(Scan::Blank(1)),
        b'a'..=b'z' => scan_name(alloc, pool, first, rest),
        b'A'..=b'Z' => scan_variable(alloc, pool, first, rest),
        b'0'..=b'9' => Ok(Scan::Wrong(0, TextKind::Number)),
        b'"' => Ok(Scan::Wrong(0, TextKind::Distinct)),
        b'$' => Ok(scan_defined(rest)),
        b'%' => Ok(Scan::Blank(line_length(rest))),
        b'\'' => scan_quoted(alloc, rest),
        _ => Ok(scan_symbol(first, rest)),
    }
}

fn scan_symbol(first: u8, rest: &[u8]) -> Scan
    ensures value { result ≡ symbol (single first) first rest.now }
    ensures sized { IsSized result (suc (length rest.now)) }
{
    match single_symbol(first) {
        Some(token) => Scan::Found(token, 1),
        None => longer_symbol(first, rest),
    }
}
