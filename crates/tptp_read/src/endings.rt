//! Where a text may end.
ghost use Rattle.std.specs.Prelude.{◌≡◌, is_ok, is_some};
ghost use Rattle.tptp_read.specs.declared.state.Side.TheVariants.{Lead};
ghost use Rattle.tptp_read.specs.Given.{meaning};
ghost use Rattle.tptp_read.specs.Machine.{unit_of as ended_unit, no_group, term_ends, ending};

use crate::state::{Call, Frame, Mode, Side, State};
use fol::{Term, TermNode};
use std::collections::VecDeque;

impl State {
    /// Whether the text may end here, since it is a whole formula or term so far. A `,` or a `)` is then refused, so either may end a text
    /// that stands in a larger one.
    #[tactic(auto, using(crate::proofs::TextEnds::unit_is_last, crate::proofs::TextEnds::name_is_last, crate::proofs::TextEnds::term_is_last))]
    pub fn can_end(&self) -> bool
        ensures { result ≡ is_ok (ending (meaning self.now)) }
    {
        match &self.mode {
            Mode::AfterUnit(_) => is_closed(&self.frames),
            Mode::AfterName(_) => ends_term(true, &self.side, &self.calls, &self.frames),
            Mode::AfterTerm(term) => {
                ends_term(is_application(term), &self.side, &self.calls, &self.frames)
            }
            _ => false,
        }
    }
}

// Whether no parenthesis is open.
fn is_closed(frames: &VecDeque<Frame>) -> bool
    ensures { result ≡ no_group frames.now.items }
{
    for frame in frames.iter() {
        if let Frame::Group(_) = frame {
            return false;
        }
    }
    true
}

fn is_application(term: &Term) -> bool
    ensures { result ≡ is_some (ended_unit Lead term.now) }
{
    matches!(term.node(), TermNode::App(_, _))
}

// Whether a text may end with a term, which is an application or not.
fn ends_term(
    application: bool,
    side: &Side,
    calls: &VecDeque<Call>,
    frames: &VecDeque<Frame>,
) -> bool
    ensures { result ≡ term_ends application side.now calls.now.items frames.now.items }
{
    if !calls.is_empty() {
        return false;
    }
    match side {
        Side::Lead => application && is_closed(frames),
        Side::Right(_, _) => is_closed(frames),
        Side::Whole => true,
    }
}
