//! Which tokens a clause has where.
ghost use Rattle.std.specs.Prelude.{◌≡◌, ◌<◌, IfOk};
ghost use Rattle.tptp_problem.specs.ClausePlaces.{begin_clause, begin_literal, behind_negation, begin_atom, inside_arguments, outside_arguments, behind_literal, behind_group, place_behind};

use std::alloc::AllocError;
use tptp_tokens::{ChainOperator, Token};

/// Where an atom of a clause stands.
#[derive(Clone, Copy, PartialEq, Eq)]
pub enum AtomPlace {
    /// At the front of a literal.
    Positive,
    /// Behind `~`.
    Negative,
    /// Behind `~ (`.
    Grouped,
}

/// Where a clause has been read to.
#[derive(Clone, Copy, PartialEq, Eq)]
pub enum ClausePlace {
    /// Before a clause: at the front, or behind a parenthesis around it.
    Clause,
    /// Before a literal, behind `|`.
    Literal,
    /// Behind `~`.
    Negation,
    /// Behind `~ (`.
    NegatedGroup,
    /// In an atom or an equation or behind it, inside this many parentheses of arguments.
    Atom(AtomPlace, usize),
    /// Behind a literal that can't go on: `$false`, or `~ (p)`.
    BehindLiteral,
    /// Behind a clause in parentheses.
    BehindGroup,
}

/// The place behind the token, if a clause has it here. What the formula reader refuses is left to it.
pub fn next_place(place: ClausePlace, token: &Token) -> Result<Option<ClausePlace>, AllocError>
    ensures { IfOk result (λ next. next ≡ place_behind place token.now) }
{
    match place {
        ClausePlace::Clause => Ok(from_clause(token)),
        ClausePlace::Literal => Ok(from_literal(token)),
        ClausePlace::Negation => Ok(from_negation(token)),
        ClausePlace::NegatedGroup => Ok(from_atom(AtomPlace::Grouped, token)),
        ClausePlace::Atom(at, 0) => Ok(from_outside(at, token)),
        ClausePlace::Atom(at, depth) => from_inside(at, depth, token),
        ClausePlace::BehindLiteral => Ok(from_literal_end(token)),
        ClausePlace::BehindGroup => Ok(from_group_end(token)),
    }
}

fn from_clause(token: &Token) -> Option<ClausePlace>
    ensures { result ≡ begin_clause token.now }
{
    match token {
        Token::Open => Some(ClausePlace::Clause),
        _ => from_literal(token),
    }
}

fn from_literal(token: &Token) -> Option<ClausePlace>
    ensures { result ≡ begin_literal token.now }
{
    match token {
        Token::Negation => Some(ClausePlace::Negation),
        Token::Truth(false) => Some(ClausePlace::BehindLiteral),
        _ => from_atom(AtomPlace::Positive, token),
    }
}

fn from_negation(token: &Token) -> Option<ClausePlace>
    ensures { result ≡ behind_negation token.now }
{
    match token {
        Token::Open => Some(ClausePlace::NegatedGroup),
        _ => from_atom(AtomPlace::Negative, token),
    }
}

fn from_atom(at: AtomPlace, token: &Token) -> Option<ClausePlace>
    ensures { result ≡ begin_atom at token.now }
{
    match token {
        Token::Name(_) | Token::Variable(_) => Some(ClausePlace::Atom(at, 0)),
        _ => None,
    }
}

fn from_outside(at: AtomPlace, token: &Token) -> Option<ClausePlace>
    ensures { result ≡ outside_arguments at token.now }
{
    match (token, at) {
        (Token::Open, _) => Some(ClausePlace::Atom(at, 1)),
        (Token::Name(_) | Token::Variable(_) | Token::Equality(true), _)
        | (Token::Equality(false), AtomPlace::Positive) => Some(ClausePlace::Atom(at, 0)),
        (Token::Close, AtomPlace::Grouped) => Some(ClausePlace::BehindLiteral),
        (_, AtomPlace::Grouped) => None,
        _ => from_literal_end(token),
    }
}

// Inside one or more parentheses of arguments.
fn from_inside(
    at: AtomPlace,
    depth: usize,
    token: &Token,
) -> Result<Option<ClausePlace>, AllocError>
    requires { 0 < depth }
    ensures { IfOk result (λ next. next ≡ inside_arguments at depth token.now) }
{
    match token {
        Token::Open => {
            let depth = depth.checked_add(1).ok_or(AllocError)?;
            Ok(Some(ClausePlace::Atom(at, depth)))
        }
        Token::Close => Ok(Some(ClausePlace::Atom(at, depth - 1))),
        _ => Ok(Some(ClausePlace::Atom(at, depth))),
    }
}

fn from_literal_end(token: &Token) -> Option<ClausePlace>
    ensures { result ≡ behind_literal token.now }
{
    match token {
        Token::Chain(ChainOperator::Or) => Some(ClausePlace::Literal),
        _ => from_group_end(token),
    }
}

fn from_group_end(token: &Token) -> Option<ClausePlace>
    ensures { result ≡ behind_group token.now }
{
    match token {
        Token::Close => Some(ClausePlace::BehindGroup),
        _ => None,
    }
}
