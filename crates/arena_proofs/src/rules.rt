//! Rules by numbers.
ghost use Rattle.std.specs.Prelude.{◌≡◌, List, Some, None, IfOk, IfSome};
ghost use Rattle.lk_rules.specs.RuleOrder.{formula_of, term_of, variable_of};
ghost use Rattle.arena_cells.specs.Items.{Item};
ghost use Rattle.arena_cells.specs.Standing.{Extends, HasTerm, HasVariable, HasFormula};
ghost use Rattle.arena_cells.specs.Meaning.{rule_at, HasRuleParts};
ghost use Rattle.arena_proofs.specs.RuleNumbers.{formula_number, term_number, eigen_number, key_of};

use arena::{Arena, RuleKey};
use fol::Formula;
use lk_rules::Rule;
use std::alloc::{AllocError, Global};

// The number of the formula that a rule names. Of a rule that names none it says nothing.
fn import_main(arena: &mut Arena, alloc: Global, rule: &Rule) -> Result<u32, AllocError>
    ensures formula { IfOk result (λ n. IfSome (formula_of rule.now) (HasFormula arena.new n)) }
    ensures grown { Extends arena.old arena.new }
{
    match rule.formula() {
        Some(main) => arena.import_formula(alloc, main),
        None => Ok(0),
    }
}

// The number of the term or of the eigenvariable that a rule names. Of a rule that names none it says nothing.
fn import_witness(arena: &mut Arena, alloc: Global, rule: &Rule) -> Result<u32, AllocError>
    ensures term { IfOk result (λ n. IfSome (term_of rule.now) (HasTerm arena.new n)) }
    ensures eigenvariable { IfOk result (λ n. IfSome (variable_of rule.now) (HasVariable arena.new n)) }
    ensures grown { Extends arena.old arena.new }
{
    match rule {
        Rule::AllL(_, term) | Rule::ExR(_, term) => arena.import_term(alloc, term),
        Rule::AllR(_, variable) | Rule::ExL(_, variable) => arena.import_variable(alloc, variable),
        _ => Ok(0),
    }
}

// The rule by these numbers: `main` of its formula, and `witness` of its term or of its eigenvariable.
fn numbered(rule: &Rule, main: u32, witness: u32) -> RuleKey
    ensures { result ≡ key_of rule.now main witness }
{
    match rule {
        Rule::Ax(_) => RuleKey::Ax(main),
        Rule::TopR => RuleKey::TopR,
        Rule::BotL => RuleKey::BotL,
        Rule::NegL(_) => RuleKey::NegL(main),
        Rule::NegR(_) => RuleKey::NegR(main),
        Rule::AndL(_) => RuleKey::AndL(main),
        Rule::AndR(_) => RuleKey::AndR(main),
        Rule::OrL(_) => RuleKey::OrL(main),
        Rule::OrR(_) => RuleKey::OrR(main),
        Rule::ImpL(_) => RuleKey::ImpL(main),
        Rule::ImpR(_) => RuleKey::ImpR(main),
        Rule::AllL(..) => RuleKey::AllL(main, witness),
        Rule::AllR(..) => RuleKey::AllR(main, witness),
        Rule::ExL(..) => RuleKey::ExL(main, witness),
        Rule::ExR(..) => RuleKey::ExR(main, witness),
        Rule::DefL(_) => RuleKey::DefL(main),
        Rule::DefR(_) => RuleKey::DefR(main),
        Rule::Cut(_) => RuleKey::Cut(main),
        Rule::Weak => RuleKey::Weak,
    }
}

/// A rule with the numbers of what it names.
pub fn import_rule(arena: &mut Arena, alloc: Global, rule: &Rule) -> Result<RuleKey, AllocError>
    ensures parts { IfOk result (HasRuleParts arena.new) }
    ensures rule { IfOk result (λ key. rule_at arena.new key ≡ rule.now) }
    ensures grown { Extends arena.old arena.new }
{
    let main = import_main(arena, alloc, rule)?;
    let witness = import_witness(arena, alloc, rule)?;
    Ok(numbered(rule, main, witness))
}

/// The same rule by other numbers: `main` of its formula, and `witness` of its term or of its eigenvariable, where it names them.
pub fn rule_with(rule: RuleKey, main: u32, witness: u32) -> RuleKey
    ensures { (a : List Item) → result ≡ key_of (rule_at a rule) main witness }
{
    match rule {
        RuleKey::Ax(_) => RuleKey::Ax(main),
        RuleKey::TopR => RuleKey::TopR,
        RuleKey::BotL => RuleKey::BotL,
        RuleKey::NegL(_) => RuleKey::NegL(main),
        RuleKey::NegR(_) => RuleKey::NegR(main),
        RuleKey::AndL(_) => RuleKey::AndL(main),
        RuleKey::AndR(_) => RuleKey::AndR(main),
        RuleKey::OrL(_) => RuleKey::OrL(main),
        RuleKey::OrR(_) => RuleKey::OrR(main),
        RuleKey::ImpL(_) => RuleKey::ImpL(main),
        RuleKey::ImpR(_) => RuleKey::ImpR(main),
        RuleKey::AllL(..) => RuleKey::AllL(main, witness),
        RuleKey::AllR(..) => RuleKey::AllR(main, witness),
        RuleKey::ExL(..) => RuleKey::ExL(main, witness),
        RuleKey::ExR(..) => RuleKey::ExR(main, witness),
        RuleKey::DefL(_) => RuleKey::DefL(main),
        RuleKey::DefR(_) => RuleKey::DefR(main),
        RuleKey::Cut(_) => RuleKey::Cut(main),
        RuleKey::Weak => RuleKey::Weak,
    }
}

// The rule of the same kind that names nothing. Of a rule that names a formula it says nothing.
fn without_formula(rule: RuleKey) -> Rule
    ensures { (a : List Item) → formula_of (rule_at a rule) ≡ None → result ≡ rule_at a rule }
{
    match rule {
        RuleKey::TopR => Rule::TopR,
        RuleKey::BotL => Rule::BotL,
        _ => Rule::Weak,
    }
}

// The rule of the same kind with this formula. Of a rule that names no formula, or a term or an eigenvariable too, it says nothing.
fn with_main(rule: RuleKey, main: Formula) -> Rule
    ensures { (a : List Item) → formula_of (rule_at a rule) ≡ Some main → term_of (rule_at a rule) ≡ None → variable_of (rule_at a rule) ≡ None → result ≡ rule_at a rule }
{
    match rule {
        RuleKey::Ax(_) => Rule::Ax(main),
        RuleKey::NegL(_) => Rule::NegL(main),
        RuleKey::NegR(_) => Rule::NegR(main),
        RuleKey::AndL(_) => Rule::AndL(main),
        RuleKey::AndR(_) => Rule::AndR(main),
        RuleKey::OrL(_) => Rule::OrL(main),
        RuleKey::OrR(_) => Rule::OrR(main),
        RuleKey::ImpL(_) => Rule::ImpL(main),
        RuleKey::ImpR(_) => Rule::ImpR(main),
        RuleKey::DefL(_) => Rule::DefL(main),
        RuleKey::DefR(_) => Rule::DefR(main),
        RuleKey::Cut(_) => Rule::Cut(main),
        _ => Rule::Weak,
    }
}

// The rule that a rule's numbers stand for, with this formula. Of a rule that names no formula it says nothing.
fn export_with(arena: &Arena, rule: RuleKey, main: Formula) -> Result<Rule, AllocError>
    requires { HasRuleParts arena.now rule }
    ensures { IfOk result (λ exported. formula_of (rule_at arena.now rule) ≡ Some main → exported ≡ rule_at arena.now rule) }
{
    match rule {
        RuleKey::AllL(_, term) => Ok(Rule::AllL(main, arena.term(term).copy()?)),
        RuleKey::AllR(_, variable) => Ok(Rule::AllR(main, arena.variable(variable).copy()?)),
        RuleKey::ExL(_, variable) => Ok(Rule::ExL(main, arena.variable(variable).copy()?)),
        RuleKey::ExR(_, term) => Ok(Rule::ExR(main, arena.term(term).copy()?)),
        _ => Ok(with_main(rule, main)),
    }
}

/// The rule that a rule's numbers stand for.
pub fn export_rule(arena: &Arena, rule: RuleKey) -> Result<Rule, AllocError>
    requires { HasRuleParts arena.now rule }
    ensures { IfOk result (λ exported. exported ≡ rule_at arena.now rule) }
{
    match rule_formula(rule) {
        Some(main) => export_with(arena, rule, arena.formula(main).copy()?),
        None => Ok(without_formula(rule)),
    }
}
/// The number of the formula that the rule names: its main formula, or of a cut the cut formula. The rules for truth and falsehood and
/// weakening name none.
pub fn rule_formula(rule: RuleKey) -> Option<u32>
    ensures { result ≡ formula_number rule }
{
    match rule {
        RuleKey::Ax(main)
        | RuleKey::NegL(main)
        | RuleKey::NegR(main)
        | RuleKey::AndL(main)
        | RuleKey::AndR(main)
        | RuleKey::OrL(main)
        | RuleKey::OrR(main)
        | RuleKey::ImpL(main)
        | RuleKey::ImpR(main)
        | RuleKey::AllL(main, _)
        | RuleKey::AllR(main, _)
        | RuleKey::ExL(main, _)
        | RuleKey::ExR(main, _)
        | RuleKey::DefL(main)
        | RuleKey::DefR(main)
        | RuleKey::Cut(main) => Some(main),
        RuleKey::TopR | RuleKey::BotL | RuleKey::Weak => None,
    }
}

/// The number of the term by which the rule instantiates a quantifier.
pub fn rule_term(rule: RuleKey) -> Option<u32>
    ensures { result ≡ term_number rule }
{
    match rule {
        RuleKey::AllL(_, term) | RuleKey::ExR(_, term) => Some(term),
        _ => None,
    }
}

/// The number of the rule's eigenvariable.
pub fn rule_eigenvariable(rule: RuleKey) -> Option<u32>
    ensures { result ≡ eigen_number rule }
{
    match rule {
        RuleKey::AllR(_, variable) | RuleKey::ExL(_, variable) => Some(variable),
        _ => None,
    }
}
