//! The parts of an inference under a map.
ghost use Rattle.std.specs.Prelude.{◌≡◌, IfOk, IfSome};
ghost use Rattle.std.specs.FinMap as fin;
ghost use Rattle.substitution.specs.Image.{image, image_term};
ghost use Rattle.lk_rules.specs.RuleOrder.{formula_of, term_of, variable_of};
ghost use Rattle.proof_trees.specs.Substitution.{renamed, image_rule, premise_map as map_of_premises};
ghost use Rattle.arena_cells.specs.Standing.{Extends, HasTerm, HasVariable, HasFormula, HasMap, variable_at, map_at, sequent_at, IsVariableAt, IsMapAt, IsSequentAt};
ghost use Rattle.arena_cells.specs.Meaning.{rule_at, HasRuleParts};

use arena::{Arena, RuleKey};
use arena_proofs::{rule_eigenvariable, rule_formula, rule_with};
use std::alloc::{AllocError, Global};

// The variable, or where it is free in the sequent the numbered variable of least number that isn't.
fn rename(arena: &mut Arena, alloc: Global, variable: u32, end: u32) -> Result<u32, AllocError>
    requires variable { IsVariableAt arena.old variable }
    requires end { IsSequentAt arena.old end }
    ensures variable { IfOk result (λ n. HasVariable arena.new n (renamed (variable_at arena.old variable) (sequent_at arena.old end))) }
    ensures grown { Extends arena.old arena.new }
{
    let vars = arena.sequent_vars(alloc, end)?;
    if !arena.has_variable(vars, variable) {
        return Ok(variable);
    }
    arena.fresh_outside(alloc, vars)
}

// The image of the formula that a rule names. Of a rule that names none it says nothing.
fn main_image(arena: &mut Arena, alloc: Global, map: u32, rule: RuleKey) -> Result<u32, AllocError>
    requires map { IsMapAt arena.old map }
    requires rule { HasRuleParts arena.old rule }
    ensures formula { IfOk result (λ n. IfSome (formula_of (rule_at arena.old rule)) (λ a. HasFormula arena.new n (image (fin.get (map_at arena.old map)) a))) }
    ensures grown { Extends arena.old arena.new }
{
    match rule_formula(rule) {
        Some(main) => arena.image(alloc, map, main),
        None => Ok(0),
    }
}

// The image of the term that a rule names, or the name of its eigenvariable under the new conclusion. Of a rule that names neither it says
// nothing.
fn witness_image(
    arena: &mut Arena,
    alloc: Global,
    map: u32,
    rule: RuleKey,
    end: u32,
) -> Result<u32, AllocError>
    requires map { IsMapAt arena.old map }
    requires rule { HasRuleParts arena.old rule }
    requires end { IsSequentAt arena.old end }
    ensures term { IfOk result (λ n. IfSome (term_of (rule_at arena.old rule)) (λ t. HasTerm arena.new n (image_term (fin.get (map_at arena.old map)) t))) }
    ensures eigenvariable { IfOk result (λ n. IfSome (variable_of (rule_at arena.old rule)) (λ y. HasVariable arena.new n (renamed y (sequent_at arena.old end)))) }
    ensures grown { Extends arena.old arena.new }
{
    match rule {
        RuleKey::AllL(_, term) | RuleKey::ExR(_, term) => arena.image_of_term(alloc, map, term),
        RuleKey::AllR(_, variable) | RuleKey::ExL(_, variable) => {
            rename(arena, alloc, variable, end)
        }
        _ => Ok(0),
    }
}

/// The rule under a map, where `end` is the image of the conclusion: its formula and its term are replaced by their images, and an
/// eigenvariable that is free in `end` is renamed.
pub(crate) fn rule_image(
    arena: &mut Arena,
    alloc: Global,
    map: u32,
    rule: RuleKey,
    end: u32,
) -> Result<RuleKey, AllocError>
    requires map { IsMapAt arena.old map }
    requires rule { HasRuleParts arena.old rule }
    requires end { IsSequentAt arena.old end }
    ensures parts { IfOk result (HasRuleParts arena.new) }
    ensures rule { IfOk result (λ image. rule_at arena.new image ≡ image_rule (map_at arena.old map) (rule_at arena.old rule) (sequent_at arena.old end)) }
    ensures grown { Extends arena.old arena.new }
{
    let main = main_image(arena, alloc, map, rule)?;
    let witness = witness_image(arena, alloc, map, rule, end)?;
    Ok(rule_with(rule, main, witness))
}

/// The map for the premises of the rule, where `end` is the image of the conclusion: it sends the eigenvariable to its new name.
pub(crate) fn premise_map(
    arena: &mut Arena,
    alloc: Global,
    map: u32,
    rule: RuleKey,
    end: u32,
) -> Result<u32, AllocError>
    requires map { IsMapAt arena.old map }
    requires rule { HasRuleParts arena.old rule }
    requires end { IsSequentAt arena.old end }
    ensures map { IfOk result (λ n. HasMap arena.new n (map_of_premises (map_at arena.old map) (rule_at arena.old rule) (sequent_at arena.old end))) }
    ensures grown { Extends arena.old arena.new }
{
    match rule_eigenvariable(rule) {
        Some(variable) => {
            let new = rename(arena, alloc, variable, end)?;
            arena.with_binding(alloc, map, variable, new)
        }
        None => Ok(map),
    }
}
