//! What takes the place of a tree: the rule of its connective or of its quantifier, and its parts.
ghost use Rattle.std.specs.Prelude.{◌≡◌, [], ◌∷◌, List, true, IfOk, Some, is_some};
ghost use Rattle.fol.specs.Syntax.{not, and, or, imp};
ghost use Rattle.expansion_laws.specs.Expansions.{turn, shallow};
ghost use Rattle.arena_cells.specs.Items.{Item};
ghost use Rattle.arena_cells.specs.Standing.{Extends, HasFormula, formula_at, variable_at, IsFormulaAt, IsVariableAt};
ghost use Rattle.arena_cells.specs.Meaning.{rule_at, HasRuleParts};
ghost use Rattle.building_laws.specs.Lists.{on};
ghost use Rattle.building_laws.specs.Building.{neg_rule, and_rule, or_rule, imp_rule, strong_rule, conjuncts, disjuncts, parts};
ghost use Rattle.arena_building.specs.Numbered.{IsNumbered};
ghost use Rattle.arena_building.specs.Dividing.{parts_each, divided, ArePremisesNumbered};

use crate::placed::{PlacedExp, Root, place_tree};
use arena::{Arena, Key, RuleKey};
use exp_tree::{Exp, other};
use fol::Var;
use lk_rules::Side;
use std::alloc::{AllocError, Global};

/// The trees that are added to what stays of a list.
#[derive(Drop)]
pub(crate) enum Added<'e> {
    One(PlacedExp<'e>),
    Two(PlacedExp<'e>, PlacedExp<'e>),
}

/// The trees that take the place of one, in each premise.
#[derive(Drop)]
pub(crate) enum Premises<'e> {
    One(Added<'e>),
    Two(Added<'e>, Added<'e>),
}

/// A rule, and what takes the place of its tree.
#[derive(Drop)]
pub(crate) struct Divided<'e> {
    pub rule: RuleKey,
    pub premises: Premises<'e>,
}

fn negation(side: Side, main: u32) -> RuleKey
    ensures rule { (a : List Item) → rule_at a result ≡ neg_rule side (formula_at a main) }
    ensures parts { (a : List Item) → IsFormulaAt a main → HasRuleParts a result }
{
    match side {
        Side::Left => RuleKey::NegL(main),
        Side::Right => RuleKey::NegR(main),
    }
}

fn conjunction(side: Side, main: u32) -> RuleKey
    ensures rule { (a : List Item) → rule_at a result ≡ and_rule side (formula_at a main) }
    ensures parts { (a : List Item) → IsFormulaAt a main → HasRuleParts a result }
{
    match side {
        Side::Left => RuleKey::AndL(main),
        Side::Right => RuleKey::AndR(main),
    }
}

fn disjunction(side: Side, main: u32) -> RuleKey
    ensures rule { (a : List Item) → rule_at a result ≡ or_rule side (formula_at a main) }
    ensures parts { (a : List Item) → IsFormulaAt a main → HasRuleParts a result }
{
    match side {
        Side::Left => RuleKey::OrL(main),
        Side::Right => RuleKey::OrR(main),
    }
}

fn implication(side: Side, main: u32) -> RuleKey
    ensures rule { (a : List Item) → rule_at a result ≡ imp_rule side (formula_at a main) }
    ensures parts { (a : List Item) → IsFormulaAt a main → HasRuleParts a result }
{
    match side {
        Side::Left => RuleKey::ImpL(main),
        Side::Right => RuleKey::ImpR(main),
    }
}

fn strong(side: Side, main: u32, variable: u32) -> RuleKey
    ensures rule { (a : List Item) → rule_at a result ≡ strong_rule side (formula_at a main) (variable_at a variable) }
    ensures parts { (a : List Item) → IsFormulaAt a main → IsVariableAt a variable → HasRuleParts a result }
{
    match side {
        Side::Left => RuleKey::ExL(main, variable),
        Side::Right => RuleKey::AllR(main, variable),
    }
}

// The parts of a conjunction: in one premise on the left, in a premise each on the right.
fn conjoined<'e>(side: Side, first: PlacedExp<'e>, second: PlacedExp<'e>) -> Premises<'e>
    ensures parts { parts_each result ≡ conjuncts side first.entry.placed second.entry.placed }
    ensures numbers { (a : List Item) → IsNumbered a first.entry → IsNumbered a second.entry → ArePremisesNumbered a result }
{
    match side {
        Side::Left => Premises::One(Added::Two(first, second)),
        Side::Right => Premises::Two(Added::One(first), Added::One(second)),
    }
}

// The parts of a disjunction, the other way round.
fn disjoined<'e>(side: Side, first: PlacedExp<'e>, second: PlacedExp<'e>) -> Premises<'e>
    ensures parts { parts_each result ≡ disjuncts side first.entry.placed second.entry.placed }
    ensures numbers { (a : List Item) → IsNumbered a first.entry → IsNumbered a second.entry → ArePremisesNumbered a result }
{
    match side {
        Side::Left => Premises::Two(Added::One(first), Added::One(second)),
        Side::Right => Premises::One(Added::Two(first, second)),
    }
}

// The rule of a negation and its part.
fn divide_not<'e>(
    arena: &Arena,
    alloc: Global,
    side: Side,
    main: u32,
    body: &'e Exp,
) -> Result<Divided<'e>, AllocError>
    requires { HasFormula arena.now main (not (shallow body.now)) }
    ensures divided { IfOk result (λ d. divided arena.now d ≡ record { rule = neg_rule side (not (shallow body.now)); premises = (on (turn side) body.now ∷ []) ∷ [] }) }
    ensures rule { IfOk result (λ d. HasRuleParts arena.now d.rule) }
    ensures numbers { IfOk result (λ d. ArePremisesNumbered arena.now d.premises) }
{
    let Key::Not(number) = arena.key(main) else {
        unreachable!()
    };
    let body = PlacedExp::new(alloc, other(side), *number, body)?;
    Ok(Divided {
        rule: negation(side, main),
        premises: Premises::One(Added::One(body)),
    })
}

// The rule of a conjunction and its parts.
fn divide_and<'e>(
    arena: &Arena,
    alloc: Global,
    side: Side,
    main: u32,
    first: &'e Exp,
    second: &'e Exp,
) -> Result<Divided<'e>, AllocError>
    requires { HasFormula arena.now main (and (shallow first.now) (shallow second.now)) }
    ensures divided { IfOk result (λ d. divided arena.now d ≡ record { rule = and_rule side (and (shallow first.now) (shallow second.now)); premises = conjuncts side (on side first.now) (on side second.now) }) }
    ensures rule { IfOk result (λ d. HasRuleParts arena.now d.rule) }
    ensures numbers { IfOk result (λ d. ArePremisesNumbered arena.now d.premises) }
{
    let Key::And(left, right) = arena.key(main) else {
        unreachable!()
    };
    let first = PlacedExp::new(alloc, side, *left, first)?;
    let second = PlacedExp::new(alloc, side, *right, second)?;
    Ok(Divided {
        rule: conjunction(side, main),
        premises: conjoined(side, first, second),
    })
}

// The rule of a disjunction and its parts.
fn divide_or<'e>(
    arena: &Arena,
    alloc: Global,
    side: Side,
    main: u32,
    first: &'e Exp,
    second: &'e Exp,
) -> Result<Divided<'e>, AllocError>
    requires { HasFormula arena.now main (or (shallow first.now) (shallow second.now)) }
    ensures divided { IfOk result (λ d. divided arena.now d ≡ record { rule = or_rule side (or (shallow first.now) (shallow second.now)); premises = disjuncts side (on side first.now) (on side second.now) }) }
    ensures rule { IfOk result (λ d. HasRuleParts arena.now d.rule) }
    ensures numbers { IfOk result (λ d. ArePremisesNumbered arena.now d.premises) }
{
    let Key::Or(left, right) = arena.key(main) else {
        unreachable!()
    };
    let first = PlacedExp::new(alloc, side, *left, first)?;
    let second = PlacedExp::new(alloc, side, *right, second)?;
    Ok(Divided {
        rule: disjunction(side, main),
        premises: disjoined(side, first, second),
    })
}

// The rule of an implication and its parts.
fn divide_imp<'e>(
    arena: &Arena,
    alloc: Global,
    side: Side,
    main: u32,
    first: &'e Exp,
    second: &'e Exp,
) -> Result<Divided<'e>, AllocError>
    requires { HasFormula arena.now main (imp (shallow first.now) (shallow second.now)) }
    ensures divided { IfOk result (λ d. divided arena.now d ≡ record { rule = imp_rule side (imp (shallow first.now) (shallow second.now)); premises = disjuncts side (on (turn side) first.now) (on side second.now) }) }
    ensures rule { IfOk result (λ d. HasRuleParts arena.now d.rule) }
    ensures numbers { IfOk result (λ d. ArePremisesNumbered arena.now d.premises) }
{
    let Key::Imp(left, right) = arena.key(main) else {
        unreachable!()
    };
    let first = PlacedExp::new(alloc, other(side), *left, first)?;
    let second = PlacedExp::new(alloc, side, *right, second)?;
    Ok(Divided {
        rule: implication(side, main),
        premises: disjoined(side, first, second),
    })
}

// The rule of a strong quantifier and the instance by its variable.
fn divide_strong<'e>(
    arena: &mut Arena,
    alloc: Global,
    side: Side,
    main: u32,
    variable: &Var,
    child: &'e Exp,
) -> Result<Divided<'e>, AllocError>
    requires { IsFormulaAt arena.old main }
    ensures divided { IfOk result (λ d. divided arena.new d ≡ record { rule = strong_rule side (formula_at arena.old main) variable.now; premises = (on side child.now ∷ []) ∷ [] }) }
    ensures rule { IfOk result (λ d. HasRuleParts arena.new d.rule) }
    ensures numbers { IfOk result (λ d. ArePremisesNumbered arena.new d.premises) }
    ensures grown { Extends arena.old arena.new }
{
    let variable = arena.import_variable(alloc, variable)?;
    let child = place_tree(arena, alloc, side, child)?;
    Ok(Divided {
        rule: strong(side, main, variable),
        premises: Premises::One(Added::One(child)),
    })
}

/// The rule of a tree's connective or strong quantifier on its side, and what takes the place of the tree.
pub(crate) fn divide<'e>(
    arena: &mut Arena,
    alloc: Global,
    placed: PlacedExp<'e>,
) -> Result<Divided<'e>, AllocError>
    requires number { IsNumbered arena.old placed }
    requires compound { is_some (parts placed.placed) ≡ true }
    ensures divided { IfOk result (λ d. parts placed.entry.placed ≡ Some (divided arena.new d)) }
    ensures rule { IfOk result (λ d. HasRuleParts arena.new d.rule) }
    ensures numbers { IfOk result (λ d. ArePremisesNumbered arena.new d.premises) }
    ensures grown { Extends arena.old arena.new }
{
    let side = placed.side();
    let main = placed.formula();
    match placed.into_root() {
        Root::Not(body) => divide_not(arena, alloc, side, main, body),
        Root::And(first, second) => divide_and(arena, alloc, side, main, first, second),
        Root::Or(first, second) => divide_or(arena, alloc, side, main, first, second),
        Root::Imp(first, second) => divide_imp(arena, alloc, side, main, first, second),
        Root::Strong(_, var, child) => divide_strong(arena, alloc, side, main, var, child),
        Root::Wk(_) | Root::Leaf(_) | Root::Weak(..) => unreachable!(),
    }
}
