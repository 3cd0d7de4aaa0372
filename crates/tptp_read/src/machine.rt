//! What a token does to what has been read.
ghost use Rattle.std.specs.Prelude.{◌≡◌, suc, ◌++◌, length, option_to_list};
ghost use Rattle.tptp_read.specs.declared.state.Limits.{Limits};
ghost use Rattle.tptp_read.specs.Given.{meaning, Gives};
ghost use Rattle.tptp_read.specs.Grammar.{formulas, terms};
ghost use Rattle.tptp_read.specs.Reader.{limited, levels, checked};
ghost use Rattle.tptp_read.specs.Machine.{at as at_place, start, begin_unit as move_begin_unit, behind_quantifier as move_behind_quantifier, begin_variable as move_begin_variable, behind_variable as move_behind_variable, behind_list as move_behind_list, step as step_by, ending};

use crate::errors::StepError;
use crate::pieces::{constant, truth};
use crate::state::{Frame, Limits, Mode, Outcome, Part, Side, State};
use crate::terms::{begin_term, behind_name, behind_term, end_term};
use crate::units::{at, behind_unit, end_unit, go_on};
use crate::variables::Variables;
use std::alloc::Global;
use std::collections::VecDeque;
use std::mem;
use tptp_tokens::{Pool, Quantifier, TextKind, Token};

impl State {
    /// Before a formula.
    pub fn before_formula(alloc: Global) -> State
        ensures { meaning result ≡ start formulas }
    {
        at(alloc, Mode::WantUnit, Part::First, VecDeque::new(alloc))
    }

    /// Before a term.
    pub fn before_term(alloc: Global) -> State
        ensures { meaning result ≡ start terms }
    {
        State {
            mode: Mode::WantTerm,
            side: Side::Whole,
            calls: VecDeque::new(alloc),
            part: Part::First,
            frames: VecDeque::new(alloc),
        }
    }

    /// Reads one more token. A token that can't stand there is `Expected`; one that could but for the limits is `Deep`. The pool may have
    /// any terms. After an error the state is of no use.
    pub fn step(
        &mut self,
        alloc: Global,
        pool: &mut Pool,
        limits: Limits,
        token: Token,
    ) -> Result<(), StepError>
        ensures { Gives (λ u. meaning self.new) result (step_by limits (meaning self.old) token) }
    {
        match mem::replace(&mut self.mode, Mode::WantUnit) {
            Mode::WantUnit => begin_unit(self, alloc, pool, limits, token),
            Mode::AfterUnit(unit) => behind_unit(self, alloc, limits, unit, token),
            Mode::WantTerm => begin_term(self, alloc, pool, token),
            Mode::AfterName(name) => behind_name(self, alloc, pool, limits, name, token),
            Mode::AfterTerm(term) => behind_term(self, alloc, pool, limits, term, token),
            Mode::WantSquare(quantifier) => behind_quantifier(self, alloc, quantifier, token),
            Mode::WantVariable(quantifier, variables) => {
                begin_variable(self, limits, quantifier, variables, token)
            }
            Mode::AfterVariable(quantifier, variables) => {
                behind_variable(self, quantifier, variables, token)
            }
            Mode::WantColon(quantifier, variables) => {
                behind_list(self, quantifier, variables, token)
            }
        }
    }

    /// What the text means where it ends here. Where it can't end, it is `Expected`.
    pub fn end(self, alloc: Global, pool: &mut Pool) -> Result<Outcome, StepError>
        ensures { Gives (λ w. w) result (ending (meaning self)) }
    {
        let State {
            mode,
            side,
            calls,
            part,
            frames,
        } = self;
        match mode {
            Mode::AfterUnit(unit) => end_unit(alloc, unit, part, frames),
            Mode::AfterName(name) => {
                let term = constant(alloc, pool, name)?;
                end_term(alloc, pool, term, side, calls, part, frames)
            }
            Mode::AfterTerm(term) => end_term(alloc, pool, term, side, calls, part, frames),
            _ => Err(StepError::Kind(TextKind::Expected)),
        }
    }
}

// Where a unit is wanted.
fn begin_unit(
    state: &mut State,
    alloc: Global,
    pool: &mut Pool,
    limits: Limits,
    token: Token,
) -> Result<(), StepError>
    ensures { Gives (λ u. meaning state.new) result (checked limits (move_begin_unit state.old.part state.old.frames.items token)) }
{
    let mode = match token {
        Token::Name(name) => Mode::AfterName(name),
        Token::Variable(var) => Mode::AfterTerm(pool.variable(alloc, var)?),
        Token::Truth(value) => Mode::AfterUnit(truth(alloc, value)?),
        Token::Negation => {
            return open_level(state, limits, Mode::WantUnit, Some(Frame::Negated));
        }
        Token::Open => {
            let part = mem::replace(&mut state.part, Part::First);
            return open_level(state, limits, Mode::WantUnit, Some(Frame::Group(part)));
        }
        Token::Quantifier(quantifier) => {
            return open_level(state, limits, Mode::WantSquare(quantifier), None);
        }
        _ => return Err(StepError::Kind(TextKind::Expected)),
    };
    go_on(state, mode);
    Ok(())
}

// One more level, with its frame where there is one yet.
fn open_level(
    state: &mut State,
    limits: Limits,
    mode: Mode,
    frame: Option<Frame>,
) -> Result<(), StepError>
    ensures { Gives (λ u. meaning state.new) result (checked limits (limited levels (suc (length state.old.frames.items)) (at_place mode state.old.part (option_to_list frame ++ state.old.frames.items)))) }
{
    if state.frames.len() >= limits.levels {
        return Err(StepError::Kind(TextKind::Deep));
    }
    if let Some(frame) = frame {
        state.frames.push_front(frame)?;
    }
    go_on(state, mode);
    Ok(())
}

// The `[` of a quantifier.
fn behind_quantifier(
    state: &mut State,
    alloc: Global,
    quantifier: Quantifier,
    token: Token,
) -> Result<(), StepError>
    ensures { (limits : Limits) → Gives (λ u. meaning state.new) result (checked limits (move_behind_quantifier quantifier state.old.part state.old.frames.items token)) }
{
    let Token::OpenSquare = token else {
        return Err(StepError::Kind(TextKind::Expected));
    };
    go_on(
        state,
        Mode::WantVariable(quantifier, Variables::empty(alloc)),
    );
    Ok(())
}

// Where a variable of a quantifier is wanted.
fn begin_variable(
    state: &mut State,
    limits: Limits,
    quantifier: Quantifier,
    variables: Variables,
    token: Token,
) -> Result<(), StepError>
    ensures { Gives (λ u. meaning state.new) result (checked limits (move_begin_variable quantifier variables state.old.part state.old.frames.items token)) }
{
    let Token::Variable(var) = token else {
        return Err(StepError::Kind(TextKind::Expected));
    };
    if variables.len() >= limits.variables {
        return Err(StepError::Kind(TextKind::Deep));
    }
    let mut variables = variables;
    variables.push(var)?;
    go_on(state, Mode::AfterVariable(quantifier, variables));
    Ok(())
}

// Behind a variable of a quantifier.
fn behind_variable(
    state: &mut State,
    quantifier: Quantifier,
    variables: Variables,
    token: Token,
) -> Result<(), StepError>
    ensures { (limits : Limits) → Gives (λ u. meaning state.new) result (checked limits (move_behind_variable quantifier variables state.old.part state.old.frames.items token)) }
{
    let mode = match token {
        Token::Comma => Mode::WantVariable(quantifier, variables),
        Token::CloseSquare => Mode::WantColon(quantifier, variables),
        _ => return Err(StepError::Kind(TextKind::Expected)),
    };
    go_on(state, mode);
    Ok(())
}

// The `:` behind the variables of a quantifier.
fn behind_list(
    state: &mut State,
    quantifier: Quantifier,
    variables: Variables,
    token: Token,
) -> Result<(), StepError>
    ensures { (limits : Limits) → Gives (λ u. meaning state.new) result (checked limits (move_behind_list quantifier variables state.old.part state.old.frames.items token)) }
{
    let Token::Colon = token else {
        return Err(StepError::Kind(TextKind::Expected));
    };
    state
        .frames
        .push_front(Frame::Quantified(quantifier, variables))?;
    go_on(state, Mode::WantUnit);
    Ok(())
}
