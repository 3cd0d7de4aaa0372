//! What an interpolant is made with, by the side on which it stands in the proof of the main formula's part: falsehood, universal quantifiers
//! and disjunctions on the right, and truth, existential quantifiers and conjunctions on the left.
ghost use Rattle.std.specs.Prelude.{◌≡◌};
ghost use Rattle.arena_interp.specs.BySide.{constant_key, constant_rule_of, quantifier_key, variable_rule, term_rule, connective_key, single_rule, split_rule};
ghost use Rattle.arena_interp.specs.Partitions.{part_number};

use arena::{Key, RuleKey};
use lk_rules::Side;

/// The number of the part in whose proof the interpolant stands on that side.
pub(crate) fn part_at(side: Side, one: u32, two: u32) -> u32
    ensures { result ≡ part_number one two side }
{
    match side {
        Side::Right => one,
        Side::Left => two,
    }
}

/// The constant.
pub(crate) fn constant(side: Side) -> Key
    ensures { result ≡ constant_key side }
{
    match side {
        Side::Right => Key::Bot,
        Side::Left => Key::Top,
    }
}

/// The rule of the constant, by which the other part is proved.
pub(crate) fn constant_rule(side: Side) -> RuleKey
    ensures { result ≡ constant_rule_of side }
{
    match side {
        Side::Right => RuleKey::BotL,
        Side::Left => RuleKey::TopR,
    }
}

/// The quantified formula with this body.
pub(crate) fn quantifier(side: Side, body: u32) -> Key
    ensures { result ≡ quantifier_key side body }
{
    match side {
        Side::Right => Key::All(body),
        Side::Left => Key::Ex(body),
    }
}

/// The rules of the quantifier: with the variable as eigenvariable in the proof of its part, and as term in the other one.
pub(crate) fn quantifier_rules(side: Side, formula: u32, variable: u32) -> (RuleKey, RuleKey)
    ensures own { result.0 ≡ variable_rule side formula variable }
    ensures other { result.1 ≡ term_rule side formula variable }
{
    match side {
        Side::Right => {
            (
                RuleKey::AllR(formula, variable),
                RuleKey::AllL(formula, variable),
            )
        }
        Side::Left => {
            (
                RuleKey::ExL(formula, variable),
                RuleKey::ExR(formula, variable),
            )
        }
    }
}

/// The formula of two interpolants.
pub(crate) fn connective(side: Side, left: u32, right: u32) -> Key
    ensures { result ≡ connective_key side left right }
{
    match side {
        Side::Right => Key::Or(left, right),
        Side::Left => Key::And(left, right),
    }
}

/// The rules of the connective: over one premise in the proof of its part, and over two in the other one.
pub(crate) fn connective_rules(side: Side, formula: u32) -> (RuleKey, RuleKey)
    ensures own { result.0 ≡ single_rule side formula }
    ensures other { result.1 ≡ split_rule side formula }
{
    match side {
        Side::Right => (RuleKey::OrR(formula), RuleKey::OrL(formula)),
        Side::Left => (RuleKey::AndL(formula), RuleKey::AndR(formula)),
    }
}
