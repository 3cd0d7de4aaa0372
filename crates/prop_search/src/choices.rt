//! What a search does at a sequent.
ghost use Rattle.std.specs.Prelude.{◌≡◌, IfOk};
ghost use Rattle.prop_search.specs.Formulas.{sequent_of, IsFit};
ghost use Rattle.prop_search.specs.Choices.{closing_rule, IsChoice, IsClosing};

use crate::connective::Signed;
use crate::numbered::Numbered;
use crate::numbering::Numbering;
use lk_rules::{Rule, Side};
use std::alloc::AllocError;

/// A rule without premises.
#[derive(Clone, Copy)]
pub(crate) enum Closing {
    /// The axiom on the formula with the number.
    Axiom(u32),
    /// Truth on the right.
    Truth,
    /// Falsity on the left.
    Falsity,
}

/// The rule that a search takes at a sequent.
#[derive(Clone, Copy)]
pub(crate) enum Choice {
    /// A rule without premises.
    Close(Closing),
    /// The rule of the formula's connective on its side.
    Main(Signed),
}

/// The rule that a search takes at a sequent, if there is one.
pub(crate) fn choose(numbering: &Numbering, sequent: &Numbered) -> Option<Choice>
    requires { IsFit numbering.now sequent.now }
    ensures { IsChoice numbering.now (sequent_of numbering.now sequent.now) result }
{
    if let Some(number) = numbering.axiom(sequent) {
        return Some(Choice::Close(Closing::Axiom(number)));
    }
    if numbering.has_truth(sequent) {
        return Some(Choice::Close(Closing::Truth));
    }
    if numbering.has_falsity(sequent) {
        return Some(Choice::Close(Closing::Falsity));
    }
    if let Some(number) = numbering.left_compound(sequent) {
        return Some(Choice::Main(Signed {
            side: Side::Left,
            number,
        }));
    }
    match numbering.right_compound(sequent) {
        Some(number) => Some(Choice::Main(Signed {
            side: Side::Right,
            number,
        })),
        None => None,
    }
}

impl Closing {
    /// The rule.
    pub fn rule(self, numbering: &Numbering) -> Result<Rule, AllocError>
        requires { IsClosing numbering.now self }
        ensures { IfOk result (λ rule. rule ≡ closing_rule numbering.now self) }
    {
        match self {
            Closing::Axiom(number) => Ok(Rule::Ax(numbering.formula(number).copy()?)),
            Closing::Truth => Ok(Rule::TopR),
            Closing::Falsity => Ok(Rule::BotL),
        }
    }
}
