//! Reading of whole texts.
ghost use Rattle.std.specs.Prelude.{◌≡◌, ◌<◌, ◌^◌, length, false, Ok, Err, IfOk};
ghost use Rattle.fol.specs.Formed.{IsFormed, IsFormedTerm};
ghost use Rattle.fol.specs.Facts.{has_body};
ghost use Rattle.fol.specs.Syntax.{Formula as FormulaMeaning, Term as TermMeaning};
ghost use Rattle.tptp_tokens.specs.declared.tokens.TextFault.{TextFault};
ghost use Rattle.tptp_tokens.specs.Stream.{stream_of};
ghost use Rattle.tptp_read.specs.Given.{meaning, GivesText, IfFault, text_error};
ghost use Rattle.tptp_read.specs.Machine.{step as step_by, ending};
ghost use Rattle.tptp_read.specs.Texts.{placed, read, IsFormulaText, IsTermText, IsFormulaFault, IsTermFault, formula_reading, term_reading};

use crate::errors::{StepError, TextError};
use crate::state::{LIMITS, Limits, Outcome, State};
use fol::{Formula, Term};
use std::alloc::Global;
use tptp_tokens::{Pool, Scan, TextFault, Token, scan};

/// The formula that the text is, with white space and comments around its tokens. Free variables stay free. A text has at most 200
/// levels of open parentheses, negations and quantifiers, and at most 1,000 members in a chain and variables in a quantifier.
pub fn read_formula(alloc: Global, text: &[u8]) -> Result<Formula, TextError>
    requires { length text.now < 2 ^ 32 }
    // It is the one reading of the whole text.
    ensures text { IfOk result (λ f. IsFormulaText text.now f) }
    // A text that has a reading is read, unless memory runs out.
    ensures only { (f : FormulaMeaning) → IsFormulaText text.now f → GivesText (λ g. g) result (Ok f) }
    // A fault is the first one of the text.
    ensures fault { IfFault result (λ e. IsFormulaFault text.now e) }
    // A text that has a first fault is refused with it, unless memory runs out.
    ensures first { (e : TextFault) → IsFormulaFault text.now e → GivesText (λ g. g) result (Err e) }
    // A text has at most one reading and at most one first fault.
    ensures one { (f g : FormulaMeaning) → IsFormulaText text.now f → IsFormulaText text.now g → f ≡ g }
    ensures one_fault { (d e : TextFault) → IsFormulaFault text.now d → IsFormulaFault text.now e → d ≡ e }
    // It is the text's reading as a function.
    ensures reading { GivesText (λ f. f) result (formula_reading text.now) }
    // What is read is well formed, and none of its predicate symbols has a body.
    ensures formed { IfOk result IsFormed }
    ensures plain { IfOk result (λ f. has_body f ≡ false) }
{
    formula_of(alloc, text)
}

#[tactic(auto, unfolding(crate::specs::Texts::formula_reading))]
fn formula_of(alloc: Global, text: &[u8]) -> Result<Formula, TextError>
    ensures { GivesText (λ f. f) result (formula_reading text.now) }
{
    match read_text(alloc, LIMITS, text, State::before_formula(alloc))? {
        Outcome::Formula(formula) => Ok(formula),
        Outcome::Term(_) => unreachable!(),
    }
}

/// The term that the text is, with white space and comments around its tokens. Variables are free. A text has at most 200 levels of open
/// parentheses.
pub fn read_term(alloc: Global, text: &[u8]) -> Result<Term, TextError>
    requires { length text.now < 2 ^ 32 }
    // It is the one reading of the whole text.
    ensures text { IfOk result (λ t. IsTermText text.now t) }
    // A text that has a reading is read, unless memory runs out.
    ensures only { (t : TermMeaning) → IsTermText text.now t → GivesText (λ u. u) result (Ok t) }
    // A fault is the first one of the text.
    ensures fault { IfFault result (λ e. IsTermFault text.now e) }
    // A text that has a first fault is refused with it, unless memory runs out.
    ensures first { (e : TextFault) → IsTermFault text.now e → GivesText (λ u. u) result (Err e) }
    // A text has at most one reading and at most one first fault.
    ensures one { (t u : TermMeaning) → IsTermText text.now t → IsTermText text.now u → t ≡ u }
    ensures one_fault { (d e : TextFault) → IsTermFault text.now d → IsTermFault text.now e → d ≡ e }
    // It is the text's reading as a function.
    ensures reading { GivesText (λ t. t) result (term_reading text.now) }
    // What is read is well formed.
    ensures formed { IfOk result IsFormedTerm }
{
    term_of(alloc, text)
}

#[tactic(auto, unfolding(crate::specs::Texts::term_reading))]
fn term_of(alloc: Global, text: &[u8]) -> Result<Term, TextError>
    ensures { GivesText (λ t. t) result (term_reading text.now) }
{
    match read_text(alloc, LIMITS, text, State::before_term(alloc))? {
        Outcome::Term(term) => Ok(term),
        Outcome::Formula(_) => unreachable!(),
    }
}

// What the whole text means from a state on.
#[tactic(auto, using(crate::proofs::Reading::blank_on, crate::proofs::Reading::found_step, crate::proofs::Reading::found_stop, crate::proofs::Reading::wrong_on, crate::proofs::Reading::end_on))]
fn read_text(alloc: Global, limits: Limits, text: &[u8], state: State) -> Result<Outcome, TextError>
    ensures { GivesText (λ w. w) result (read limits (meaning state) (stream_of text.now)) }
{
    let mut pool = Pool::for_text(alloc, text.len())?;
    let mut state = state;
    let mut rest = text;
    loop {
        let at = text.len() - rest.len();
        match scan(alloc, &mut pool, rest)? {
            Scan::End => return end_at(alloc, &mut pool, state, at),
            Scan::Blank(length) => rest = rest.split_at(length).1,
            Scan::Found(token, length) => {
                match step_at(alloc, &mut pool, limits, &mut state, token, at) {
                    Ok(()) => rest = rest.split_at(length).1,
                    Err(error) => return Err(error),
                }
            }
            Scan::Wrong(place, kind) => {
                return Err(TextError::Text(TextFault {
                    at: (at + place) as u64,
                    kind,
                }));
            }
        }
    }
}

// The token at this place of the text.
fn step_at(
    alloc: Global,
    pool: &mut Pool,
    limits: Limits,
    state: &mut State,
    token: Token,
    at: usize,
) -> Result<(), TextError>
    ensures { GivesText (λ u. meaning state.new) result (placed at (step_by limits (meaning state.old) token)) }
{
    match state.step(alloc, pool, limits, token) {
        Ok(()) => Ok(()),
        Err(error) => Err(error_at(at, error)),
    }
}

// The end of the text at this place.
fn end_at(alloc: Global, pool: &mut Pool, state: State, at: usize) -> Result<Outcome, TextError>
    ensures { GivesText (λ w. w) result (placed at (ending (meaning state))) }
{
    match state.end(alloc, pool) {
        Ok(outcome) => Ok(outcome),
        Err(error) => Err(error_at(at, error)),
    }
}

fn error_at(at: usize, error: StepError) -> TextError
    ensures { result ≡ text_error at error }
{
    match error {
        StepError::Memory => TextError::Memory,
        StepError::Kind(kind) => TextError::Text(TextFault {
            at: at as u64,
            kind,
        }),
    }
}
