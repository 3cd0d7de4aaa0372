//! Connectives, and what takes the place of a formula with one.
ghost use Rattle.std.specs.Prelude.{◌≡◌};
ghost use Rattle.prop_search.specs.Premises.{on_left, on_right, parts_of, rule_with};

use fol::Formula;
use lk_rules::{Rule, Side};

/// The connective at the head of a formula, with the numbers of the parts.
#[derive(Clone, Copy)]
pub(crate) enum Connective {
    Not(u32),
    And(u32, u32),
    Or(u32, u32),
    Imp(u32, u32),
}

/// A formula on a side of a sequent, by its number.
#[derive(Clone, Copy)]
pub(crate) struct Signed {
    pub side: Side,
    pub number: u32,
}

/// What stands in the premises of a rule in place of the main formula.
#[derive(Clone, Copy)]
pub(crate) enum Parts {
    /// One premise, with one part.
    One(Signed),
    /// One premise, with both parts.
    Both(Signed, Signed),
    /// Two premises, with a part each.
    Either(Signed, Signed),
}

fn left(number: u32) -> Signed
    ensures { result ≡ on_left number }
{
    Signed {
        side: Side::Left,
        number,
    }
}

fn right(number: u32) -> Signed
    ensures { result ≡ on_right number }
{
    Signed {
        side: Side::Right,
        number,
    }
}

impl Connective {
    /// What takes the place of a formula with the connective on that side.
    pub fn parts(self, side: Side) -> Parts
        ensures { result ≡ parts_of side self }
    {
        match (side, self) {
            (Side::Left, Connective::Not(body)) => Parts::One(right(body)),
            (Side::Right, Connective::Not(body)) => Parts::One(left(body)),
            (Side::Left, Connective::And(first, second)) => Parts::Both(left(first), left(second)),
            (Side::Right, Connective::And(first, second)) => {
                Parts::Either(right(first), right(second))
            }
            (Side::Left, Connective::Or(first, second)) => Parts::Either(left(first), left(second)),
            (Side::Right, Connective::Or(first, second)) => {
                Parts::Both(right(first), right(second))
            }
            (Side::Left, Connective::Imp(first, second)) => {
                Parts::Either(right(first), left(second))
            }
            (Side::Right, Connective::Imp(first, second)) => {
                Parts::Both(left(first), right(second))
            }
        }
    }

    /// The rule of the connective on that side, with the main formula.
    pub fn rule(self, side: Side, main: Formula) -> Rule
        ensures { result ≡ rule_with side self main }
    {
        match (side, self) {
            (Side::Left, Connective::Not(_)) => Rule::NegL(main),
            (Side::Right, Connective::Not(_)) => Rule::NegR(main),
            (Side::Left, Connective::And(..)) => Rule::AndL(main),
            (Side::Right, Connective::And(..)) => Rule::AndR(main),
            (Side::Left, Connective::Or(..)) => Rule::OrL(main),
            (Side::Right, Connective::Or(..)) => Rule::OrR(main),
            (Side::Left, Connective::Imp(..)) => Rule::ImpL(main),
            (Side::Right, Connective::Imp(..)) => Rule::ImpR(main),
        }
    }
}
