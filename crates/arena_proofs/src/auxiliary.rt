//! The auxiliary formulas of an inference's premises.
ghost use Rattle.std.specs.Prelude.{◌≡◌, ◌<◌, IfOk};
ghost use Rattle.substitution.specs.Unfolding.{unf};
ghost use Rattle.cut_laws.specs.Contraction.{with_aux as with_auxiliary};
ghost use Rattle.arena_cells.specs.Standing.{Extends, HasSequent, sequent_at, formula_at, IsSequentAt, IsFormulaAt};
ghost use Rattle.arena_cells.specs.Meaning.{rule_at, HasRuleParts};
ghost use Rattle.arena_proofs.specs.AuxiliaryNumbers.{first_numbers, second_numbers, IsAuxiliaryAt, with_option, with_numbers};

use crate::rules::rule_formula;
use arena::{Arena, Key, RuleKey};
use lk_rules::Side;
use std::alloc::{AllocError, Global};

/// Auxiliary formulas by their numbers and sides: none, one, two, the instance of a quantified formula's body by a term, or what a formula
/// unfolds to.
#[derive(Clone, Copy)]
pub(crate) enum Auxiliary {
    Nothing,
    One(Side, u32),
    Two(Side, u32, Side, u32),
    Instance(Side, u32, u32),
    Unfolding(Side, u32),
}

// The auxiliary formulas of the first premise of a rule, whose formula has this key. There are none where the shape doesn't fit.
fn first_auxiliary(rule: RuleKey, formula: &Key) -> Auxiliary
    ensures { result ≡ first_numbers rule formula.now }
{
    match (rule, formula) {
        (RuleKey::NegL(_), Key::Not(body)) => Auxiliary::One(Side::Right, *body),
        (RuleKey::NegR(_), Key::Not(body)) => Auxiliary::One(Side::Left, *body),
        (RuleKey::AndL(_), Key::And(first, second)) => {
            Auxiliary::Two(Side::Left, *first, Side::Left, *second)
        }
        (RuleKey::AndR(_), Key::And(first, _)) => Auxiliary::One(Side::Right, *first),
        (RuleKey::OrL(_), Key::Or(first, _)) => Auxiliary::One(Side::Left, *first),
        (RuleKey::OrR(_), Key::Or(first, second)) => {
            Auxiliary::Two(Side::Right, *first, Side::Right, *second)
        }
        (RuleKey::ImpL(_), Key::Imp(first, _)) => Auxiliary::One(Side::Right, *first),
        (RuleKey::ImpR(_), Key::Imp(first, second)) => {
            Auxiliary::Two(Side::Left, *first, Side::Right, *second)
        }
        (RuleKey::AllL(_, term), Key::All(body)) => Auxiliary::Instance(Side::Left, *body, term),
        (RuleKey::AllR(_, name), Key::All(body)) => Auxiliary::Instance(Side::Right, *body, name),
        (RuleKey::ExL(_, name), Key::Ex(body)) => Auxiliary::Instance(Side::Left, *body, name),
        (RuleKey::ExR(_, term), Key::Ex(body)) => Auxiliary::Instance(Side::Right, *body, term),
        (RuleKey::DefL(main), _) => Auxiliary::Unfolding(Side::Left, main),
        (RuleKey::DefR(main), _) => Auxiliary::Unfolding(Side::Right, main),
        (RuleKey::Cut(formula), _) => Auxiliary::One(Side::Right, formula),
        _ => Auxiliary::Nothing,
    }
}

// The same of the second premise.
fn second_auxiliary(rule: RuleKey, formula: &Key) -> Auxiliary
    ensures { result ≡ second_numbers rule formula.now }
{
    match (rule, formula) {
        (RuleKey::AndR(_), Key::And(_, second)) => Auxiliary::One(Side::Right, *second),
        (RuleKey::OrL(_), Key::Or(_, second)) | (RuleKey::ImpL(_), Key::Imp(_, second)) => {
            Auxiliary::One(Side::Left, *second)
        }
        (RuleKey::Cut(formula), _) => Auxiliary::One(Side::Left, formula),
        _ => Auxiliary::Nothing,
    }
}

// The sequent with what the formula at the number unfolds to, if it does.
#[tactic(auto, using(arena_cells::proofs::Facts::sequents))]
fn with_unfolding(
    arena: &mut Arena,
    alloc: Global,
    end: u32,
    side: Side,
    formula: u32,
) -> Result<u32, AllocError>
    requires end { IsSequentAt arena.old end }
    requires formula { IsFormulaAt arena.old formula }
    ensures sequent { IfOk result (λ n. HasSequent arena.new n (with_option (sequent_at arena.old end) side (unf (formula_at arena.old formula)))) }
    ensures grown { Extends arena.old arena.new }
{
    match arena.unfolding(alloc, formula)? {
        Some(unfolding) => arena.sequent_with(alloc, end, side, unfolding),
        None => Ok(end),
    }
}

// The sequent with the formulas at these numbers.
#[tactic(auto, using(arena_cells::proofs::Facts::sequents))]
fn with_formulas(
    arena: &mut Arena,
    alloc: Global,
    end: u32,
    auxiliary: Auxiliary,
) -> Result<u32, AllocError>
    requires end { IsSequentAt arena.old end }
    requires formulas { IsAuxiliaryAt arena.old auxiliary }
    ensures sequent { IfOk result (λ n. HasSequent arena.new n (with_numbers arena.old (sequent_at arena.old end) auxiliary)) }
    ensures grown { Extends arena.old arena.new }
{
    match auxiliary {
        Auxiliary::Nothing => Ok(end),
        Auxiliary::One(side, formula) => arena.sequent_with(alloc, end, side, formula),
        Auxiliary::Two(side, first, other, second) => {
            let end = arena.sequent_with(alloc, end, side, first)?;
            arena.sequent_with(alloc, end, other, second)
        }
        Auxiliary::Instance(side, body, term) => {
            let formula = arena.instance(alloc, body, term)?;
            arena.sequent_with(alloc, end, side, formula)
        }
        Auxiliary::Unfolding(side, formula) => with_unfolding(arena, alloc, end, side, formula),
    }
}

/// The sequent with the auxiliary formulas of a premise of the rule, the first (0) or the second (1). Where the shape of the rule's formula
/// doesn't fit there are none.
pub fn with_aux(
    arena: &mut Arena,
    alloc: Global,
    end: u32,
    rule: RuleKey,
    premise: u64,
) -> Result<u32, AllocError>
    requires end { IsSequentAt arena.old end }
    requires rule { HasRuleParts arena.old rule }
    requires premise { premise < 2 }
    ensures sequent { IfOk result (λ n. HasSequent arena.new n (with_auxiliary (sequent_at arena.old end) (rule_at arena.old rule) premise)) }
    ensures grown { Extends arena.old arena.new }
{
    let Some(formula) = rule_formula(rule) else {
        return Ok(end);
    };
    let key = arena.key(formula);
    let auxiliary = if premise == 0 {
        first_auxiliary(rule, key)
    } else {
        second_auxiliary(rule, key)
    };
    with_formulas(arena, alloc, end, auxiliary)
}
