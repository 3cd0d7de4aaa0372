//! The free variables of trees.
ghost use Rattle.std.specs.Prelude.{◌≡◌, IfOk};
ghost use Rattle.free_variables.specs.Union.{union_of};
ghost use Rattle.lk_rules.specs.RuleOrder.{formula_of, term_of};
ghost use Rattle.lk_rules.specs.Sequents.{vars_sequent};
ghost use Rattle.proof_trees.specs.Trees.{concl, rule_of, below as trees_below};
ghost use Rattle.arena_cells.specs.Standing.{Extends, HasVariables, tree_at, variables_at, IsTreeAt, AreVariablesAt};
ghost use Rattle.arena_cells.specs.Meaning.{rule_at, trees_at, HasRuleParts, HasPremises, ArePartsBelow};
ghost use Rattle.arena.specs.TreeVariables.{vars_named_formula, vars_named_term, vars_named, without_eigen, vars_tree, vars_trees};

use arena::{Arena, Parts, RuleKey};
use arena_proofs::{end, premises, rule, rule_eigenvariable, rule_formula, rule_term};
use std::alloc::{AllocError, Global};

// The free variables of the formula that a rule names.
fn formula_vars(arena: &mut Arena, alloc: Global, rule: RuleKey) -> Result<u32, AllocError>
    requires { HasRuleParts arena.old rule }
    ensures set { IfOk result (λ n. HasVariables arena.new n (vars_named_formula (formula_of (rule_at arena.old rule)))) }
    ensures grown { Extends arena.old arena.new }
{
    match rule_formula(rule) {
        Some(formula) => arena.free_vars(alloc, formula),
        None => arena.no_variable(alloc),
    }
}

// The variables of the term that a rule names.
fn term_vars(arena: &mut Arena, alloc: Global, rule: RuleKey) -> Result<u32, AllocError>
    requires { HasRuleParts arena.old rule }
    ensures set { IfOk result (λ n. HasVariables arena.new n (vars_named_term (term_of (rule_at arena.old rule)))) }
    ensures grown { Extends arena.old arena.new }
{
    match rule_term(rule) {
        Some(term) => arena.term_vars(alloc, term),
        None => arena.no_variable(alloc),
    }
}

// The free variables of what a rule names, but for its eigenvariable.
fn named_vars(arena: &mut Arena, alloc: Global, rule: RuleKey) -> Result<u32, AllocError>
    requires { HasRuleParts arena.old rule }
    ensures set { IfOk result (λ n. HasVariables arena.new n (vars_named (rule_at arena.old rule))) }
    ensures grown { Extends arena.old arena.new }
{
    let formula = formula_vars(arena, alloc, rule)?;
    let term = term_vars(arena, alloc, rule)?;
    arena.union_variables(alloc, formula, term)
}

// The variables of a set but for the eigenvariable of a rule.
fn without_eigenvariable(
    arena: &mut Arena,
    alloc: Global,
    rule: RuleKey,
    vars: u32,
) -> Result<u32, AllocError>
    requires rule { HasRuleParts arena.old rule }
    requires vars { AreVariablesAt arena.old vars }
    ensures set { IfOk result (λ n. HasVariables arena.new n (without_eigen (rule_at arena.old rule) (variables_at arena.old vars))) }
    ensures grown { Extends arena.old arena.new }
{
    match rule_eigenvariable(rule) {
        Some(variable) => arena.without_variable(alloc, vars, variable),
        None => Ok(vars),
    }
}

// The free variables of the root of a tree: of its conclusion and of what its rule names.
fn root_vars(arena: &mut Arena, alloc: Global, proof: u32) -> Result<u32, AllocError>
    requires { IsTreeAt arena.old proof }
    ensures set { IfOk result (λ n. HasVariables arena.new n (union_of (vars_sequent (concl (tree_at arena.old proof))) (vars_named (rule_of (tree_at arena.old proof))))) }
    ensures grown { Extends arena.old arena.new }
{
    let named = named_vars(arena, alloc, rule(arena, proof))?;
    let conclusion = arena.sequent_vars(alloc, end(arena, proof))?;
    arena.union_variables(alloc, conclusion, named)
}

// The free variables of a tree, from its root and from those of the premises' trees.
fn vars_over(arena: &mut Arena, alloc: Global, proof: u32, below: u32) -> Result<u32, AllocError>
    requires proof { IsTreeAt arena.old proof }
    requires below { HasVariables arena.old below (vars_trees (trees_below (tree_at arena.old proof))) }
    ensures set { IfOk result (λ n. HasVariables arena.new n (vars_tree (tree_at arena.old proof))) }
    ensures grown { Extends arena.old arena.new }
{
    let below = without_eigenvariable(arena, alloc, rule(arena, proof), below)?;
    let root = root_vars(arena, alloc, proof)?;
    arena.union_variables(alloc, root, below)
}

/// The free variables of a tree, where an eigenvariable is bound in the premises of its inference. Each distinct subtree is looked at once
/// as long as the arena lives.
#[cycle(tree_vars)]
pub fn tree_vars(arena: &mut Arena, alloc: Global, proof: u32) -> Result<u32, AllocError>
    requires { IsTreeAt arena.old proof }
    ensures set { IfOk result (λ n. HasVariables arena.new n (vars_tree (tree_at arena.old proof))) }
    ensures grown { Extends arena.old arena.new }
{
    if let Some(number) = arena.known_vars(proof) {
        return Ok(number);
    }
    let below = vars_below(arena, alloc, proof, premises(arena, proof))?;
    let number = vars_over(arena, alloc, proof, below)?;
    arena.note_vars(proof, number)?;
    Ok(number)
}

// The free variables of the premises' trees, whose numbers are below the number `above`.
#[cycle(tree_vars)]
fn vars_below(
    arena: &mut Arena,
    alloc: Global,
    above: u32,
    premises: Parts,
) -> Result<u32, AllocError>
    requires there { HasPremises arena.old premises }
    requires smaller { ArePartsBelow above premises }
    ensures set { IfOk result (λ n. HasVariables arena.new n (vars_trees (trees_at arena.old premises))) }
    ensures grown { Extends arena.old arena.new }
{
    let _above = above;
    match premises {
        Parts::Zero => arena.no_variable(alloc),
        Parts::One(only) => tree_vars(arena, alloc, only),
        Parts::Two(first, second) => {
            let first = tree_vars(arena, alloc, first)?;
            let second = tree_vars(arena, alloc, second)?;
            arena.union_variables(alloc, first, second)
        }
    }
}
