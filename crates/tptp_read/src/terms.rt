//! What a token does in a term and behind it.
ghost use Rattle.std.specs.Prelude.{◌≡◌, suc, ◌+◌, nat_le, IfOk};
ghost use Rattle.tptp_read.specs.declared.state.Limits.{Limits};
ghost use Rattle.tptp_read.specs.Given.{meaning, Gives};
ghost use Rattle.tptp_read.specs.Reader.{checked, or_expected};
ghost use Rattle.tptp_read.specs.Machine.{unit_of as ended_unit, begin_term as move_begin_term, behind_name as move_behind_name, behind_term as move_behind_term, behind_outer as move_behind_outer, ending_term};

use crate::arguments::Arguments;
use crate::errors::StepError;
use crate::pieces::{called, constant, equation};
use crate::state::{Call, Frame, Limits, Mode, Outcome, Part, Side, State};
use crate::units::{behind_unit, end_unit, leave_calls};
use fol::{Formula, Term, TermNode, Text};
use std::alloc::{AllocError, Global};
use std::collections::VecDeque;
use std::mem;
use tptp_tokens::{Pool, TextKind, Token};

/// Where a term is wanted.
pub fn begin_term(
    state: &mut State,
    alloc: Global,
    pool: &mut Pool,
    token: Token,
) -> Result<(), StepError>
    ensures { (limits : Limits) → Gives (λ u. meaning state.new) result (checked limits (move_begin_term state.old.side state.old.calls.items state.old.part state.old.frames.items token)) }
{
    state.mode = match token {
        Token::Name(name) => Mode::AfterName(name),
        Token::Variable(var) => Mode::AfterTerm(pool.variable(alloc, var)?),
        _ => return Err(StepError::Kind(TextKind::Expected)),
    };
    Ok(())
}

// Whether one more level may be opened.
fn has_level(limits: Limits, calls: usize, frames: usize) -> bool
    ensures { result ≡ nat_le (suc (calls + frames)) limits.levels }
{
    frames < limits.levels && calls < limits.levels - frames
}

/// Behind a name, which has arguments where a parenthesis follows.
#[tactic(auto, using(crate::proofs::Depth::depth_is))]
pub fn behind_name(
    state: &mut State,
    alloc: Global,
    pool: &mut Pool,
    limits: Limits,
    name: Text,
    token: Token,
) -> Result<(), StepError>
    ensures { Gives (λ u. meaning state.new) result (checked limits (move_behind_name name state.old.side state.old.calls.items state.old.part state.old.frames.items token)) }
{
    let Token::Open = token else {
        let term = constant(alloc, pool, name)?;
        return behind_term(state, alloc, pool, limits, term, token);
    };
    if !has_level(limits, state.calls.len(), state.frames.len()) {
        return Err(StepError::Kind(TextKind::Deep));
    }
    let terms = Arguments::none(alloc);
    state.calls.push_front(Call { name, terms })?;
    state.mode = Mode::WantTerm;
    Ok(())
}

/// Behind a term.
pub fn behind_term(
    state: &mut State,
    alloc: Global,
    pool: &mut Pool,
    limits: Limits,
    term: Term,
    token: Token,
) -> Result<(), StepError>
    ensures { Gives (λ u. meaning state.new) result (checked limits (move_behind_term term state.old.side state.old.calls.items state.old.part state.old.frames.items token)) }
{
    if state.calls.is_empty() {
        return behind_outer(state, alloc, pool, limits, term, token);
    }
    match token {
        Token::Comma => {
            let call = &mut state.calls[0];
            call.terms.push(term)?;
            state.mode = Mode::WantTerm;
            Ok(())
        }
        Token::Close => match state.calls.pop_front() {
            Some(call) => {
                let term = called(alloc, pool, call, term)?;
                state.mode = Mode::AfterTerm(term);
                Ok(())
            }
            None => Err(StepError::Kind(TextKind::Expected)),
        },
        _ => Err(StepError::Kind(TextKind::Expected)),
    }
}

// The unit that ends with a term, if one can.
fn unit_of(
    alloc: Global,
    pool: &mut Pool,
    side: Side,
    term: Term,
) -> Result<Option<Formula>, AllocError>
    ensures { IfOk result (λ unit. unit ≡ ended_unit side term) }
{
    match side {
        Side::Lead => match term.node() {
            TermNode::App(symbol, terms) => {
                let atom = Formula::atom(alloc, symbol.copy()?, terms.copy()?)?;
                Ok(Some(atom))
            }
            TermNode::Free(_) | TermNode::Bound(_) => Ok(None),
        },
        Side::Right(sign, left) => {
            let unit = equation(alloc, pool, sign, left, term)?;
            Ok(Some(unit))
        }
        Side::Whole => Ok(None),
    }
}

// Behind a term that is in no other one.
fn behind_outer(
    state: &mut State,
    alloc: Global,
    pool: &mut Pool,
    limits: Limits,
    term: Term,
    token: Token,
) -> Result<(), StepError>
    ensures { Gives (λ u. meaning state.new) result (checked limits (move_behind_outer term state.old.side state.old.part state.old.frames.items token)) }
{
    match (mem::replace(&mut state.side, Side::Lead), token) {
        (Side::Lead, Token::Equality(sign)) => {
            state.mode = Mode::WantTerm;
            state.side = Side::Right(sign, term);
            leave_calls(&mut state.calls);
            Ok(())
        }
        (side, token) => match unit_of(alloc, pool, side, term)? {
            Some(unit) => behind_unit(state, alloc, limits, unit, token),
            None => Err(StepError::Kind(TextKind::Expected)),
        },
    }
}

/// What a text means that ends with the term.
pub fn end_term(
    alloc: Global,
    pool: &mut Pool,
    term: Term,
    side: Side,
    calls: VecDeque<Call>,
    part: Part,
    frames: VecDeque<Frame>,
) -> Result<Outcome, StepError>
    ensures { Gives (λ w. w) result (or_expected (ending_term term side calls.items part frames.items)) }
{
    if !calls.is_empty() {
        return Err(StepError::Kind(TextKind::Expected));
    }
    match side {
        Side::Whole => Ok(Outcome::Term(term)),
        side => match unit_of(alloc, pool, side, term)? {
            Some(unit) => end_unit(alloc, unit, part, frames),
            None => Err(StepError::Kind(TextKind::Expected)),
        },
    }
}
