//! One token at the front of what is left of a text.
ghost use Rattle.std.specs.Prelude.{◌≡◌, ◌≤◌, length, IfOk};
ghost use Rattle.tptp_tokens.specs.Formed.{IsFormedScan};
ghost use Rattle.tptp_tokens.specs.Lexer.{scanned, IsSized};
ghost use Rattle.tptp_problem.specs.declared.errors.ReadError.TheVariants.{Fault as ReadFault};
ghost use Rattle.tptp_problem.specs.Readers.{Gives, passed, unwanted as unwanted_scan, fault as fault_at, mark_at};
ghost use Rattle.tptp_problem.specs.Words.{is_mark as is_mark_token};

use crate::errors::{Fault, ProblemKind, ReadError};
use std::alloc::{AllocError, Global};
use tptp_tokens::{Pool, Scan, TextKind, Token, scan};

/// A token that is wanted at some place of each entry.
#[derive(Clone, Copy, PartialEq, Eq)]
pub enum Mark {
    Open,
    Comma,
    Dot,
}

/// What stands behind white space and comments, and the bytes from there on.
#[tactic(auto, using(crate::proofs::Passing::passed_blank, crate::proofs::Passing::passed_stop))]
pub fn next_token<'a>(
    alloc: Global,
    pool: &mut Pool,
    bytes: &'a [u8],
) -> Result<(Scan, &'a [u8]), AllocError>
    ensures front { IfOk result (λ x. x.1.now ≡ passed 0 bytes.now) }
    ensures token { IfOk result (λ x. x.0 ≡ scanned (passed 0 bytes.now)) }
    ensures sized { IfOk result (λ x. IsSized x.0 (length x.1.now)) }
    ensures formed { IfOk result (λ x. IsFormedScan x.0) }
    ensures bound { IfOk result (λ x. length x.1.now ≤ length bytes.now) }
{
    let mut rest = bytes;
    loop {
        match scan(alloc, pool, rest)? {
            Scan::Blank(length) => rest = rest.split_at(length).1,
            token => return Ok((token, rest)),
        }
    }
}

/// A fault with so many bytes left.
pub fn fault(left: usize, kind: ProblemKind) -> ReadError
    ensures { result ≡ ReadFault (fault_at left kind) }
{
    ReadError::Fault(Fault { left, kind })
}

/// The fault where something else was wanted than what stands at the front, with so many bytes left.
pub fn unwanted(found: &Scan, left: usize) -> ReadError
    requires { IsSized found.now left }
    ensures { result ≡ ReadFault (unwanted_scan found.now left) }
{
    match found {
        Scan::Wrong(place, kind) => fault(left - *place, ProblemKind::Text(*kind)),
        _ => fault(left, ProblemKind::Text(TextKind::Expected)),
    }
}

fn is_mark(mark: Mark, token: &Token) -> bool
    ensures { result ≡ is_mark_token mark token.now }
{
    matches!(
        (mark, token),
        (Mark::Open, Token::Open) | (Mark::Comma, Token::Comma) | (Mark::Dot, Token::Dot)
    )
}

/// The bytes behind the mark.
#[tactic(auto, unfolding(crate::specs::Readers::mark_at))]
pub fn read_mark<'a>(
    alloc: Global,
    pool: &mut Pool,
    mark: Mark,
    bytes: &'a [u8],
) -> Result<&'a [u8], ReadError>
    ensures value { Gives (λ x. x.now) result (mark_at mark bytes.now) }
    ensures bound { IfOk result (λ x. length x.now ≤ length bytes.now) }
{
    let (found, front) = next_token(alloc, pool, bytes)?;
    match found {
        Scan::Found(token, length) => {
            if is_mark(mark, &token) {
                Ok(front.split_at(length).1)
            } else {
                Err(fault(front.len(), ProblemKind::Text(TextKind::Expected)))
            }
        }
        found => Err(unwanted(&found, front.len())),
    }
}
