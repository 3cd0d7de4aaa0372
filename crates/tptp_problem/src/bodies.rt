//! The bodies of entries.
ghost use Rattle.std.specs.Prelude.{◌≡◌, ◌≤◌, length, drop, IfOk};
ghost use Rattle.tptp_problem.specs.Readers.{Gives, placed};
ghost use Rattle.tptp_problem.specs.BodyReader.{body_meaning, body_start, unexpected as unexpected_at, body_error as error_of_body, body_step, body_ending, is_end, is_comma, ends_before, ended_by, body_from, body_at};

use crate::clause_places::{ClausePlace, next_place};
use crate::errors::{ProblemKind, ReadError};
use crate::problems::Language;
use crate::tokens::{fault, next_token};
use fol::Formula;
use std::alloc::Global;
use tptp_read::{Limits, Outcome, State, StepError};
use tptp_tokens::{Pool, Scan, TextKind, Token};

/// The limits inside an entry, whose own parenthesis is a level.
pub const ENTRY_LIMITS: Limits = Limits {
    levels: 199,
    operators: 999,
    variables: 1000,
};

/// How far the body of an entry has been read.
#[derive(Drop)]
pub struct Body {
    pub state: State,
    /// Where the body is a clause: how far that has been read.
    pub place: Option<ClausePlace>,
}

// The kind of a token that can't stand there, and of an end that comes too early.
fn unexpected(place: Option<ClausePlace>) -> ProblemKind
    ensures { result ≡ unexpected_at place }
{
    match place {
        Some(_) => ProblemKind::Clause,
        None => ProblemKind::Text(TextKind::Expected),
    }
}

fn body_error(place: Option<ClausePlace>, left: usize, error: StepError) -> ReadError
    ensures { result ≡ error_of_body place left error }
{
    match error {
        StepError::Memory => ReadError::Memory,
        StepError::Kind(TextKind::Expected) => fault(left, unexpected(place)),
        StepError::Kind(kind) => fault(left, ProblemKind::Text(kind)),
    }
}

impl Body {
    /// Before the body.
    fn new(alloc: Global, language: Language) -> Body
        ensures { body_meaning result ≡ body_start language }
    {
        let place = match language {
            Language::Fof => None,
            Language::Cnf => Some(ClausePlace::Clause),
        };
        Body {
            state: State::before_formula(alloc),
            place,
        }
    }

    /// Whether the body ends before this token.
    #[tactic(auto, unfolding(crate::specs::BodyReader::ends_before))]
    fn ends_before(&self, token: &Token) -> bool
        ensures { result ≡ ends_before (body_meaning self.now) token.now }
    {
        ends_body(token) && self.state.can_end()
    }

    /// Reads one more token, with so many bytes left from it on. After an error the body is of no use.
    #[tactic(auto, unfolding(crate::specs::BodyReader::body_step))]
    fn step(
        &mut self,
        alloc: Global,
        pool: &mut Pool,
        token: Token,
        left: usize,
    ) -> Result<(), ReadError>
        ensures { Gives (λ u. body_meaning self.new) result (placed left (body_step ENTRY_LIMITS (body_meaning self.old) token)) }
    {
        let place = self.place;
        if let Some(at) = place {
            let next = next_place(at, &token)?;
            if next.is_none() {
                return Err(fault(left, ProblemKind::Clause));
            }
            self.place = next;
        }
        match self.state.step(alloc, pool, ENTRY_LIMITS, token) {
            Ok(()) => Ok(()),
            Err(error) => Err(body_error(place, left, error)),
        }
    }

    /// What the body means where it ends here, with so many bytes left.
    #[tactic(auto, unfolding(crate::specs::BodyReader::body_ending))]
    fn end(self, alloc: Global, pool: &mut Pool, left: usize) -> Result<Formula, ReadError>
        ensures { Gives (λ f. f) result (placed left (body_ending (body_meaning self))) }
    {
        let Body { state, place } = self;
        match state.end(alloc, pool) {
            Ok(Outcome::Formula(formula)) => Ok(formula),
            Ok(Outcome::Term(_)) => Err(fault(left, unexpected(place))),
            Err(error) => Err(body_error(place, left, error)),
        }
    }
}

fn ends_body(token: &Token) -> bool
    ensures { result ≡ is_end token.now }
{
    matches!(token, Token::Comma | Token::Close)
}

fn is_a_comma(token: &Token) -> bool
    ensures { result ≡ is_comma token.now }
{
    matches!(token, Token::Comma)
}

/// The formula of a body, whether a `,` ended it, and the bytes behind the `,` or `)` that did.
#[tactic(auto, unfolding(crate::specs::BodyReader::body_at))]
pub fn read_body<'a>(
    alloc: Global,
    pool: &mut Pool,
    language: Language,
    bytes: &'a [u8],
) -> Result<(Formula, bool, &'a [u8]), ReadError>
    ensures value { Gives (λ x. (x.0, x.1, x.2.now)) result (body_at language bytes.now) }
    ensures bound { IfOk result (λ x. length x.2.now ≤ length bytes.now) }
{
    body_of(alloc, pool, Body::new(alloc, language), bytes)
}

// The body where it ends at the front of `rest`, with a `,` or a `)` of `count` bytes.
fn finished<'a>(
    alloc: Global,
    pool: &mut Pool,
    body: Body,
    annotated: bool,
    count: usize,
    rest: &'a [u8],
) -> Result<(Formula, bool, &'a [u8]), ReadError>
    requires { count ≤ length rest.now }
    ensures value { Gives (λ x. (x.0, x.1, x.2.now)) result (ended_by annotated (drop count rest.now) (placed (length rest.now) (body_ending (body_meaning body)))) }
    ensures bound { IfOk result (λ x. length x.2.now ≤ length rest.now) }
{
    let formula = body.end(alloc, pool, rest.len())?;
    Ok((formula, annotated, rest.split_at(count).1))
}

// The same from a state on.
#[tactic(auto, using(crate::proofs::Loops::body_go_on, crate::proofs::Loops::body_stop, crate::proofs::Loops::body_end, crate::proofs::Loops::body_wrong, crate::proofs::Loops::body_missing, crate::proofs::Loops::body_blank))]
fn body_of<'a>(
    alloc: Global,
    pool: &mut Pool,
    body: Body,
    bytes: &'a [u8],
) -> Result<(Formula, bool, &'a [u8]), ReadError>
    ensures value { Gives (λ x. (x.0, x.1, x.2.now)) result (body_from (body_meaning body) bytes.now) }
    ensures bound { IfOk result (λ x. length x.2.now ≤ length bytes.now) }
{
    let mut body = body;
    let mut rest = bytes;
    loop {
        let (found, front) = next_token(alloc, pool, rest)?;
        match found {
            Scan::Found(token, length) => {
                if body.ends_before(&token) {
                    return finished(alloc, pool, body, is_a_comma(&token), length, front);
                }
                match body.step(alloc, pool, token, front.len()) {
                    Ok(()) => rest = front.split_at(length).1,
                    Err(error) => return Err(error),
                }
            }
            Scan::Wrong(place, kind) => {
                return Err(fault(front.len() - place, ProblemKind::Text(kind)));
            }
            Scan::End | Scan::Blank(_) => {
                return Err(fault(front.len(), unexpected(body.place)));
            }
        }
    }
}
