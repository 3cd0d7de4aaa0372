//! Rules with all unfolded.
ghost use Rattle.std.specs.Prelude.{◌≡◌, IfOk, IfSome, OnOk};
ghost use Rattle.lk_rules.specs.RuleOrder.{formula_of, term_of, variable_of};
ghost use Rattle.arena_cells.specs.Standing.{Extends, HasTerm, HasVariable, HasFormula};
ghost use Rattle.arena_cells.specs.Meaning.{rule_at, HasRuleParts};
ghost use Rattle.def_laws.specs.Flat.{flat as flat_of};
ghost use Rattle.def_laws.specs.Unfolded.{flat_rule};
ghost use Rattle.arena_flat.specs.Flattened.{AreFlat};
ghost use Rattle.arena_flat.specs.Short.{IsShort};
ghost use Rattle.arena_flat.specs.Over.{weak_key};

use crate::flattened::Flattened;
use crate::formulas::{flatten_formula, is_short};
use crate::terms::{copy_term, copy_variable};
use arena::{Arena, RuleKey};
use arena_proofs::{rule_formula, rule_with};
use std::alloc::{AllocError, Global};

// The number of the unfolded formula of a rule. Of a rule that names none it says nothing.
fn flatten_main(
    alloc: Global,
    from: &Arena,
    to: &mut Arena,
    flattened: &mut Flattened,
    rule: RuleKey,
) -> Result<u32, AllocError>
    requires parts { HasRuleParts from.now rule }
    requires flattened { AreFlat from.now to.old flattened.old }
    ensures formula { IfOk result (λ n. IfSome (formula_of (rule_at from.now rule)) (λ a. HasFormula to.new n (flat_of a))) }
    ensures grown { Extends to.old to.new }
    ensures flattened { OnOk result (AreFlat from.now to.new flattened.new) }
{
    match rule_formula(rule) {
        Some(main) => flatten_formula(alloc, from, to, flattened, main),
        None => Ok(0),
    }
}

// The number of the term or of the eigenvariable that a rule names. Of a rule that names neither it says nothing.
fn copy_witness(
    alloc: Global,
    from: &Arena,
    to: &mut Arena,
    flattened: &mut Flattened,
    rule: RuleKey,
) -> Result<u32, AllocError>
    requires parts { HasRuleParts from.now rule }
    requires flattened { AreFlat from.now to.old flattened.old }
    ensures term { IfOk result (λ n. IfSome (term_of (rule_at from.now rule)) (HasTerm to.new n)) }
    ensures eigenvariable { IfOk result (λ n. IfSome (variable_of (rule_at from.now rule)) (HasVariable to.new n)) }
    ensures grown { Extends to.old to.new }
    ensures flattened { OnOk result (AreFlat from.now to.new flattened.new) }
{
    match rule {
        RuleKey::AllL(_, term) | RuleKey::ExR(_, term) => {
            copy_term(alloc, from, to, flattened, term)
        }
        RuleKey::AllR(_, variable) | RuleKey::ExL(_, variable) => {
            copy_variable(alloc, from, to, variable)
        }
        _ => Ok(0),
    }
}

/// The rule with its formula unfolded. A rule that unfolds an atom becomes weakening.
pub(crate) fn flatten_rule(
    alloc: Global,
    from: &Arena,
    to: &mut Arena,
    flattened: &mut Flattened,
    rule: RuleKey,
) -> Result<RuleKey, AllocError>
    requires parts { HasRuleParts from.now rule }
    requires flattened { AreFlat from.now to.old flattened.old }
    ensures parts { IfOk result (HasRuleParts to.new) }
    ensures rule { IfOk result (λ flat. rule_at to.new flat ≡ flat_rule (rule_at from.now rule)) }
    ensures grown { Extends to.old to.new }
    ensures flattened { OnOk result (AreFlat from.now to.new flattened.new) }
{
    let main = flatten_main(alloc, from, to, flattened, rule)?;
    let witness = copy_witness(alloc, from, to, flattened, rule)?;
    Ok(weakened(rule_with(rule, main, witness)))
}

// Weakening in place of a rule that unfolds an atom.
fn weakened(rule: RuleKey) -> RuleKey
    ensures { result ≡ weak_key rule }
{
    match rule {
        RuleKey::DefL(_) | RuleKey::DefR(_) => RuleKey::Weak,
        _ => rule,
    }
}

/// The formula that a rule names is short.
pub(crate) fn rule_is_short(from: &Arena, rule: RuleKey)
    requires { HasRuleParts from.now rule }
    ensures { IfSome (formula_of (rule_at from.now rule)) IsShort }
{
    if let Some(main) = rule_formula(rule) {
        is_short(from, main);
    }
}
