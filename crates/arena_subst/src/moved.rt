//! The last rule of a proof under a new conclusion.
ghost use Rattle.std.specs.Prelude.{◌≡◌, IfOk};
ghost use Rattle.finite.specs.Finite as set;
ghost use Rattle.free_variables.specs.Fresh.{least_outside};
ghost use Rattle.substitution.specs.Maps.{only as only_binding};
ghost use Rattle.lk_rules.specs.Sequents.{vars_sequent};
ghost use Rattle.proof_trees.specs.Trees.{rule_of, below, IsValid, AllValid};
ghost use Rattle.proof_trees.specs.Substitution.{renamed as renamed_variable, sub, sub_all};
ghost use Rattle.cut_laws.specs.Contraction.{moved_rule, renamed_trees, moved_trees};
ghost use Rattle.arena_cells.specs.Standing.{Extends, HasVariable, HasTree, term_at, variable_at, sequent_at, tree_at, IsTermAt, IsVariableAt, IsSequentAt, IsTreeAt};
ghost use Rattle.arena_cells.specs.Meaning.{rule_at, trees_at, HasRuleParts, HasPremises};

use crate::tree_images::substitute_in;
use arena::{Arena, Parts, RuleKey};
use arena_proofs::{premises, rule};
use std::alloc::{AllocError, Global};

/// A rule with the numbers of its premises' proofs.
#[derive(Clone, Copy)]
pub struct Moved {
    pub rule: RuleKey,
    pub premises: Parts,
}

/// The tree of a proof in which the term takes the place of the variable.
#[tactic(auto, using(arena_cells::proofs::Facts::sequents))]
pub fn replace(
    arena: &mut Arena,
    alloc: Global,
    proof: u32,
    variable: u32,
    term: u32,
) -> Result<u32, AllocError>
    requires proof { IsTreeAt arena.old proof }
    requires valid { IsValid (tree_at arena.old proof) }
    requires variable { IsVariableAt arena.old variable }
    requires term { IsTermAt arena.old term }
    ensures tree { IfOk result (λ n. HasTree arena.new n (sub (tree_at arena.old proof) (only_binding (variable_at arena.old variable) (term_at arena.old term)))) }
    ensures grown { Extends arena.old arena.new }
{
    let map = arena.only_binding(alloc, variable, term)?;
    substitute_in(arena, alloc, proof, map)
}

// The same of several proofs.
#[tactic(auto, using(arena_cells::proofs::Facts::trees))]
fn replace_in_all(
    arena: &mut Arena,
    alloc: Global,
    proofs: Parts,
    variable: u32,
    term: u32,
) -> Result<Parts, AllocError>
    requires proofs { HasPremises arena.old proofs }
    requires valid { AllValid (trees_at arena.old proofs) }
    requires variable { IsVariableAt arena.old variable }
    requires term { IsTermAt arena.old term }
    ensures there { IfOk result (HasPremises arena.new) }
    ensures trees { IfOk result (λ made. trees_at arena.new made ≡ sub_all (trees_at arena.old proofs) (only_binding (variable_at arena.old variable) (term_at arena.old term))) }
    ensures grown { Extends arena.old arena.new }
{
    Ok(match proofs {
        Parts::Zero => Parts::Zero,
        Parts::One(only) => Parts::One(replace(arena, alloc, only, variable, term)?),
        Parts::Two(first, second) => {
            let first = replace(arena, alloc, first, variable, term)?;
            Parts::Two(first, replace(arena, alloc, second, variable, term)?)
        }
    })
}

// The numbered variable of least number that isn't free in the sequent.
#[tactic(auto, using(arena_cells::proofs::Facts::sequents))]
fn fresh_name(arena: &mut Arena, alloc: Global, end: u32) -> Result<u32, AllocError>
    requires { IsSequentAt arena.old end }
    ensures variable { IfOk result (λ n. HasVariable arena.new n (least_outside (set.listing (vars_sequent (sequent_at arena.old end))))) }
    ensures grown { Extends arena.old arena.new }
{
    let vars = arena.sequent_vars(alloc, end)?;
    arena.fresh_outside(alloc, vars)
}

// An eigenvariable under a new conclusion: the variable, or a fresh one where it is free there. With it the proofs above, in which the
// variable has its new name.
fn renamed(
    arena: &mut Arena,
    alloc: Global,
    end: u32,
    variable: u32,
    proofs: Parts,
) -> Result<(u32, Parts), AllocError>
    requires end { IsSequentAt arena.old end }
    requires variable { IsVariableAt arena.old variable }
    requires proofs { HasPremises arena.old proofs }
    requires valid { AllValid (trees_at arena.old proofs) }
    ensures variable { IfOk result (λ made. HasVariable arena.new made.0 (renamed_variable (variable_at arena.old variable) (sequent_at arena.old end))) }
    ensures there { IfOk result (λ made. HasPremises arena.new made.1) }
    ensures trees { IfOk result (λ made. trees_at arena.new made.1 ≡ renamed_trees (sequent_at arena.old end) (variable_at arena.old variable) (trees_at arena.old proofs)) }
    ensures grown { Extends arena.old arena.new }
{
    if !arena.occurs_in_sequent(alloc, variable, end)? {
        return Ok((variable, proofs));
    }
    let name = fresh_name(arena, alloc, end)?;
    let made = replace_in_all(arena, alloc, proofs, variable, name)?;
    Ok((name, made))
}

/// The last rule of a proof under a new conclusion, with its premises: an eigenvariable that is free there becomes a fresh one.
pub fn moved_to(arena: &mut Arena, alloc: Global, end: u32, proof: u32) -> Result<Moved, AllocError>
    requires end { IsSequentAt arena.old end }
    requires proof { IsTreeAt arena.old proof }
    requires valid { IsValid (tree_at arena.old proof) }
    ensures rule_there { IfOk result (λ made. HasRuleParts arena.new made.rule) }
    ensures rule { IfOk result (λ made. rule_at arena.new made.rule ≡ moved_rule (sequent_at arena.old end) (rule_of (tree_at arena.old proof))) }
    ensures premises_there { IfOk result (λ made. HasPremises arena.new made.premises) }
    ensures trees { IfOk result (λ made. trees_at arena.new made.premises ≡ moved_trees (sequent_at arena.old end) (rule_of (tree_at arena.old proof)) (below (tree_at arena.old proof))) }
    ensures grown { Extends arena.old arena.new }
{
    let above = premises(arena, proof);
    match rule(arena, proof) {
        RuleKey::AllR(main, variable) => {
            let (name, premises) = renamed(arena, alloc, end, variable, above)?;
            let rule = RuleKey::AllR(main, name);
            Ok(Moved { rule, premises })
        }
        RuleKey::ExL(main, variable) => {
            let (name, premises) = renamed(arena, alloc, end, variable, above)?;
            let rule = RuleKey::ExL(main, name);
            Ok(Moved { rule, premises })
        }
        rule => Ok(Moved {
            rule,
            premises: above,
        }),
    }
}
