//! What a token does behind a unit.
ghost use Rattle.std.specs.Prelude.{◌≡◌, [], IfOk, OnOk};
ghost use Rattle.tptp_read.specs.declared.state.Limits.{Limits};
ghost use Rattle.tptp_read.specs.Given.{meaning, Gives};
ghost use Rattle.tptp_read.specs.Reader.{checked, or_expected};
ghost use Rattle.tptp_read.specs.Machine.{at as at_place, settled, settled_frames, behind_chain, behind_binary, behind_close, behind_settled as move_behind_settled, behind_unit as move_behind_unit, ending_settled};

use crate::errors::StepError;
use crate::pieces::{chained, closed, completed};
use crate::state::{Call, Frame, Limits, Mode, Outcome, Part, Side, State};
use fol::Formula;
use std::alloc::{AllocError, Global};
use std::collections::VecDeque;
use std::mem;
use tptp_tokens::{BinaryOperator, ChainOperator, TextKind, Token};

/// A state that is in no term.
pub fn at(alloc: Global, mode: Mode, part: Part, frames: VecDeque<Frame>) -> State
    ensures { meaning result ≡ at_place mode part frames.items }
{
    State {
        mode,
        side: Side::Lead,
        calls: VecDeque::new(alloc),
        part,
        frames,
    }
}

/// Goes on in no term.
pub fn go_on(state: &mut State, mode: Mode)
    ensures { meaning state.new ≡ at_place mode state.old.part state.old.frames.items }
{
    state.mode = mode;
    state.side = Side::Lead;
    leave_calls(&mut state.calls);
}

/// No calls any more. The room for them stays.
pub fn leave_calls(calls: &mut VecDeque<Call>)
    ensures { calls.new.items ≡ [] }
{
    if !calls.is_empty() {
        calls.clear();
    }
}

// Takes off the negations and quantifiers that end with the unit, and answers what they make of it.
fn settle(alloc: Global, frames: &mut VecDeque<Frame>, unit: Formula) -> Result<Formula, AllocError>
    ensures frames { OnOk result (frames.new.items ≡ settled_frames frames.old.items) }
    ensures formula { IfOk result (λ f. f ≡ settled frames.old.items unit) }
{
    let mut formula = unit;
    loop {
        if let None | Some(Frame::Group(_)) = frames.front() {
            return Ok(formula);
        }
        match frames.pop_front() {
            Some(Frame::Negated) => formula = Formula::not(alloc, formula)?,
            Some(Frame::Quantified(quantifier, variables)) => {
                formula = closed(alloc, quantifier, variables, formula)?;
            }
            _ => return Ok(formula),
        }
    }
}

/// Behind the unit.
pub fn behind_unit(
    state: &mut State,
    alloc: Global,
    limits: Limits,
    unit: Formula,
    token: Token,
) -> Result<(), StepError>
    ensures { Gives (λ u. meaning state.new) result (checked limits (move_behind_unit unit state.old.part state.old.frames.items token)) }
{
    let unit = settle(alloc, &mut state.frames, unit)?;
    behind_settled(state, alloc, limits, unit, token)
}

fn behind_settled(
    state: &mut State,
    alloc: Global,
    limits: Limits,
    unit: Formula,
    token: Token,
) -> Result<(), StepError>
    ensures { Gives (λ u. meaning state.new) result (checked limits (move_behind_settled unit state.old.part state.old.frames.items token)) }
{
    match token {
        Token::Chain(operator) => go_on_chain(state, alloc, limits, operator, unit),
        Token::Binary(operator) => begin_binary(state, operator, unit),
        Token::Close => close_group(state, alloc, unit),
        _ => Err(StepError::Kind(TextKind::Expected)),
    }
}

fn go_on_chain(
    state: &mut State,
    alloc: Global,
    limits: Limits,
    operator: ChainOperator,
    unit: Formula,
) -> Result<(), StepError>
    ensures { Gives (λ u. meaning state.new) result (checked limits (behind_chain operator unit state.old.part state.old.frames.items)) }
{
    let part = mem::replace(&mut state.part, Part::First);
    let (members, before) = match (operator, part) {
        (_, Part::First) => (unit, 0),
        (ChainOperator::And, Part::Chained(ChainOperator::And, members, before))
        | (ChainOperator::Or, Part::Chained(ChainOperator::Or, members, before)) => {
            (chained(alloc, operator, members, unit)?, before)
        }
        _ => return Err(StepError::Kind(TextKind::Expected)),
    };
    if before >= limits.operators {
        return Err(StepError::Kind(TextKind::Deep));
    }
    state.part = Part::Chained(operator, members, before + 1);
    go_on(state, Mode::WantUnit);
    Ok(())
}

fn begin_binary(state: &mut State, operator: BinaryOperator, unit: Formula) -> Result<(), StepError>
    ensures { (limits : Limits) → Gives (λ u. meaning state.new) result (checked limits (behind_binary operator unit state.old.part state.old.frames.items)) }
{
    let Part::First = state.part else {
        return Err(StepError::Kind(TextKind::Expected));
    };
    state.part = Part::Joined(operator, unit);
    go_on(state, Mode::WantUnit);
    Ok(())
}

fn close_group(state: &mut State, alloc: Global, unit: Formula) -> Result<(), StepError>
    ensures { (limits : Limits) → Gives (λ u. meaning state.new) result (checked limits (behind_close unit state.old.part state.old.frames.items)) }
{
    match state.frames.pop_front() {
        Some(Frame::Group(outer)) => {
            let part = mem::replace(&mut state.part, outer);
            let formula = completed(alloc, part, unit)?;
            go_on(state, Mode::AfterUnit(formula));
            Ok(())
        }
        _ => Err(StepError::Kind(TextKind::Expected)),
    }
}

/// The formula of a text that ends with the unit.
pub fn end_unit(
    alloc: Global,
    unit: Formula,
    part: Part,
    frames: VecDeque<Frame>,
) -> Result<Outcome, StepError>
    ensures { Gives (λ w. w) result (or_expected (ending_settled (settled frames.items unit) part (settled_frames frames.items))) }
{
    let mut frames = frames;
    let unit = settle(alloc, &mut frames, unit)?;
    if !frames.is_empty() {
        return Err(StepError::Kind(TextKind::Expected));
    }
    let formula = completed(alloc, part, unit)?;
    Ok(Outcome::Formula(formula))
}
