//! The part to which a rule's main formula counts.
ghost use Rattle.std.specs.Prelude.{◌≡◌};
ghost use Rattle.finite.specs.Finite as set;
ghost use Rattle.lk_rules.specs.Sequents.{side_of};
ghost use Rattle.lk_rules.specs.Rules.{main_stands};
ghost use Rattle.interp_laws.specs.Interpolation.{part_of as part_of_rule};
ghost use Rattle.arena_cells.specs.Items.{formula};
ghost use Rattle.arena_cells.specs.Standing.{formula_of, sequent_at, IsSequentAt};
ghost use Rattle.arena_cells.specs.Meaning.{meaning, rule_at, HasRuleParts, HasParts};

use arena::{Arena, Key, RuleKey};
use lk_rules::Side;

// Whether the formula that the key means stands on that side.
fn has_key(arena: &Arena, sequent: u32, side: Side, key: &Key) -> bool
    requires sequent { IsSequentAt arena.now sequent }
    requires parts { HasParts arena.now key.now }
    requires formula { meaning arena.now key.now ≡ formula (formula_of (meaning arena.now key.now)) }
    ensures { result ≡ set.has (side_of (sequent_at arena.now sequent) side) (formula_of (meaning arena.now key.now)) }
{
    let side = arena.side(sequent, side);
    let _numbers = arena.side_numbers(side);
    match arena.find(key) {
        Some(number) => arena.side_has(side, number),
        None => false,
    }
}

// Whether the sequent has the main formula of the rule on its sides.
fn has_main_formula(arena: &Arena, rule: RuleKey, sequent: u32) -> bool
    requires rule { HasRuleParts arena.now rule }
    requires sequent { IsSequentAt arena.now sequent }
    ensures { result ≡ main_stands (rule_at arena.now rule) (sequent_at arena.now sequent) }
{
    match rule {
        RuleKey::Ax(main) => {
            arena.sequent_has(sequent, Side::Left, main)
                && arena.sequent_has(sequent, Side::Right, main)
        }
        RuleKey::TopR => has_key(arena, sequent, Side::Right, &Key::Top),
        RuleKey::BotL => has_key(arena, sequent, Side::Left, &Key::Bot),
        RuleKey::NegL(main)
        | RuleKey::AndL(main)
        | RuleKey::OrL(main)
        | RuleKey::ImpL(main)
        | RuleKey::AllL(main, _)
        | RuleKey::ExL(main, _)
        | RuleKey::DefL(main) => arena.sequent_has(sequent, Side::Left, main),
        RuleKey::NegR(main)
        | RuleKey::AndR(main)
        | RuleKey::OrR(main)
        | RuleKey::ImpR(main)
        | RuleKey::AllR(main, _)
        | RuleKey::ExR(main, _)
        | RuleKey::DefR(main) => arena.sequent_has(sequent, Side::Right, main),
        RuleKey::Cut(_) | RuleKey::Weak => true,
    }
}

/// The part to which the main formula of the rule counts: the first, `Right`, where it stands there, else the second, `Left`.
pub(crate) fn part_of(arena: &Arena, rule: RuleKey, first: u32) -> Side
    requires rule { HasRuleParts arena.now rule }
    requires first { IsSequentAt arena.now first }
    ensures { result ≡ part_of_rule (rule_at arena.now rule) (sequent_at arena.now first) }
{
    if has_main_formula(arena, rule, first) {
        Side::Right
    } else {
        Side::Left
    }
}
