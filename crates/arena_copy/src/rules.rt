//! Copies of rules.
ghost use Rattle.std.specs.Prelude.{◌≡◌, IfOk, IfSome};
ghost use Rattle.lk_rules.specs.RuleOrder.{formula_of, term_of, variable_of};
ghost use Rattle.arena_cells.specs.Standing.{Extends, HasTerm, HasVariable, HasFormula};
ghost use Rattle.arena_cells.specs.Meaning.{rule_at, HasRuleParts};
ghost use Rattle.arena_copy.specs.Copied.{AreCopied};

use crate::copied::Copied;
use crate::formulas::copy_formula;
use crate::terms::{copy_term, copy_variable};
use arena::{Arena, RuleKey};
use arena_proofs::{rule_formula, rule_with};
use std::alloc::{AllocError, Global};

// The number of the copy of the formula that a rule names. Of a rule that names none it says nothing.
fn copy_main(
    alloc: Global,
    from: &Arena,
    to: &mut Arena,
    copied: &mut Copied,
    rule: RuleKey,
) -> Result<u32, AllocError>
    requires parts { HasRuleParts from.now rule }
    requires copied { AreCopied from.now to.old copied.old }
    ensures formula { IfOk result (λ n. IfSome (formula_of (rule_at from.now rule)) (HasFormula to.new n)) }
    ensures grown { Extends to.old to.new }
    ensures copied { IfOk result (λ _. AreCopied from.now to.new copied.new) }
{
    match rule_formula(rule) {
        Some(main) => copy_formula(alloc, from, to, copied, main),
        None => Ok(0),
    }
}

// The number of the copy of the term or of the eigenvariable that a rule names. Of a rule that names neither it says nothing.
fn copy_witness(
    alloc: Global,
    from: &Arena,
    to: &mut Arena,
    copied: &mut Copied,
    rule: RuleKey,
) -> Result<u32, AllocError>
    requires parts { HasRuleParts from.now rule }
    requires copied { AreCopied from.now to.old copied.old }
    ensures term { IfOk result (λ n. IfSome (term_of (rule_at from.now rule)) (HasTerm to.new n)) }
    ensures eigenvariable { IfOk result (λ n. IfSome (variable_of (rule_at from.now rule)) (HasVariable to.new n)) }
    ensures grown { Extends to.old to.new }
    ensures copied { IfOk result (λ _. AreCopied from.now to.new copied.new) }
{
    match rule {
        RuleKey::AllL(_, term) | RuleKey::ExR(_, term) => copy_term(alloc, from, to, copied, term),
        RuleKey::AllR(_, variable) | RuleKey::ExL(_, variable) => {
            copy_variable(alloc, from, to, variable)
        }
        _ => Ok(0),
    }
}

/// The rule with the numbers of the copies of what it names.
pub(crate) fn copy_rule(
    alloc: Global,
    from: &Arena,
    to: &mut Arena,
    copied: &mut Copied,
    rule: RuleKey,
) -> Result<RuleKey, AllocError>
    requires parts { HasRuleParts from.now rule }
    requires copied { AreCopied from.now to.old copied.old }
    ensures parts { IfOk result (HasRuleParts to.new) }
    ensures rule { IfOk result (λ copy. rule_at to.new copy ≡ rule_at from.now rule) }
    ensures grown { Extends to.old to.new }
    ensures copied { IfOk result (λ _. AreCopied from.now to.new copied.new) }
{
    let main = copy_main(alloc, from, to, copied, rule)?;
    let witness = copy_witness(alloc, from, to, copied, rule)?;
    Ok(rule_with(rule, main, witness))
}
